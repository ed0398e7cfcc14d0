// A block cipher from a half cipher, by six rounds of Feistel's.
#![tactic(auto)]

ghost use Rattle.std.specs.Prelude.{replicate, ◌≡◌};
ghost use Rattle.block.specs.Num.{num};
ghost use Rattle.half_cipher.specs.Rounds.{keys_of};
ghost use Rattle.wide.specs.Wide.{mixed_under, pair_of, round_under, unround_under, wide};
ghost use Rattle.wide.specs.WideLaws.{wide_lawful};

use block::{Block, Halves};
use cipher::{Cipher, WrongKeyLen};
use half_cipher::{HalfCipher, HalfKey};

/// Takes blocks through six rounds, each of them under two keys of the half cipher; its own key is the twelve of them.
#[derive(Drop)]
pub struct Wide<H> {
    half_cipher: H,
    key: [u8; 192],
}

impl<H> Wide<H> {
    /// One with the key that is all zero.
    pub fn new(half_cipher: H) -> Wide<H>
        ensures half_cipher { result.half_cipher ≡ half_cipher }
        ensures key { result.key ≡ replicate 192 0 }
    {
        Wide {
            half_cipher,
            key: [0; 192],
        }
    }

    /// The keys of the rounds, two for each.
    fn round_keys(&self) -> &[[HalfKey; 2]]
        ensures { result.now ≡ keys_of (pair_of self.now.key) 6 }
    {
        let (half_keys, _) = self.key.as_chunks::<16>();
        let (pairs, _) = half_keys.as_chunks::<2>();
        pairs
    }
}

impl<H: HalfCipher> Wide<H> {
    /// What a round makes of a half under its two keys.
    fn mixed(&self, keys: &[HalfKey; 2], half: u64) -> u64
        ensures { result ≡ mixed_under (H.maps self.now.half_cipher).forward keys.now half }
    {
        let [even, odd] = keys;
        self.half_cipher.forward(even, half) ^ self.half_cipher.forward(odd, half)
    }

    fn round(&self, keys: &[HalfKey; 2], halves: Halves) -> Halves
        ensures { result ≡ round_under (H.maps self.now.half_cipher).forward keys.now halves }
    {
        let (a, b) = halves;
        (b, a ^ self.mixed(keys, b))
    }

    fn undo_round(&self, keys: &[HalfKey; 2], halves: Halves) -> Halves
        ensures { result ≡ unround_under (H.maps self.now.half_cipher).forward keys.now halves }
    {
        let (a, b) = halves;
        (b ^ self.mixed(keys, a), a)
    }
}

impl<H: HalfCipher> Cipher for Wide<H> {
    ghost scheme = { λ c. wide (H.HalfCipher.maps c.half_cipher).forward };

    ghost loaded = { λ c. c.key };

    ghost lawful = { λ c. wide_lawful (H.HalfCipher.maps c.half_cipher).forward (H.HalfCipher.lawful c.half_cipher).forward_half };

    fn key_len(&self) -> usize {
        self.key.len()
    }

    // as the bench cipher's but for the size: a function for both would be a call in place of one `?`
    fn load(&mut self, key: &[u8]) -> Result<(), WrongKeyLen> {
        self.key = <[u8; 192]>::try_from(key)?;
        Ok(())
    }

    fn encipher(&self, block: Block) -> Block {
        let halves = self
            .round_keys()
            .iter()
            .fold(block.halves(), |halves, keys| self.round(keys, halves));
        Block::from_halves(halves)
    }

    fn decipher(&self, block: Block) -> Block {
        let halves = self.round_keys().iter().rfold(
            block.halves(),
            |halves, keys| self.undo_round(keys, halves),
        );
        Block::from_halves(halves)
    }
}

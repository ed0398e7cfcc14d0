// Speck64/128 (Beaulieu, Shors, Smith, Treatman-Clark, Weeks and Wingers, 2013).
ghost use Rattle.half_cipher.specs.Rounds.{keys_of};
ghost use Rattle.half_cipher.specs.Speck.{round, round_key, speck, unround};
ghost use Rattle.half_cipher.specs.Words.{words_of_key};
ghost use Rattle.std.specs.Prelude.{◌≡◌};
ghost use Rattle.half_cipher.specs.SpeckLaws.{speck_lawful};

use crate::words::{Words, join, split};
use crate::{HalfCipher, HalfKey};
use block::be_words;

const ROUNDS: usize = 27;

#[derive(Clone, Copy)]
pub struct Speck64;

/// One round under its key.
fn round(k: u32, v: Words) -> Words
    ensures { result ≡ round k v }
{
    let (x, y) = v;
    let x = x.rotate_right(8).wrapping_add(y) ^ k;
    (x, y.rotate_left(3) ^ x)
}

/// One round undone.
fn undo_round(k: u32, v: Words) -> Words
    ensures { result ≡ unround k v }
{
    let (x, y) = v;
    let y = (y ^ x).rotate_right(3);
    ((x ^ k).wrapping_sub(y).rotate_left(8), y)
}

/// The keys of the rounds. The schedule is the round itself, on l and k, with the round's number in the place of its
/// key.
fn round_keys(key: &HalfKey) -> [u32; ROUNDS]
    ensures { result ≡ keys_of (round_key (words_of_key key.now)) ROUNDS }
{
    let [mut l2, mut l1, mut l0, mut k] = be_words(*key);
    let mut keys = [0; ROUNDS];
    for (i, slot) in keys.iter_mut().enumerate() {
        *slot = k;
        let (l, next) = round(i as u32, (l0, k));
        l0 = l1;
        l1 = l2;
        l2 = l;
        k = next;
    }
    keys
}

impl HalfCipher for Speck64 {
    ghost maps = { λ _. speck };

    ghost lawful = { λ h. speck_lawful };

    fn forward(&self, key: &HalfKey, half: u64) -> u64 {
        let keys = round_keys(key);
        join(keys.iter().fold(split(half), |v, k| round(*k, v)))
    }

    fn backward(&self, key: &HalfKey, half: u64) -> u64 {
        let keys = round_keys(key);
        join(keys.iter().rfold(split(half), |v, k| undo_round(*k, v)))
    }
}

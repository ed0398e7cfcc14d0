// AES-128 behind the trait of ciphers.
ghost use Rattle.aes.specs.Columns.{state_of};
ghost use Rattle.aes.specs.Scheme.{aes128};
ghost use Rattle.fips197.specs.KeyExpansion.{round_keys_of};
ghost use Rattle.std.specs.Prelude.{◌≡◌, map, replicate};
ghost use Rattle.aes.specs.SchemeLaws.{aes128_lawful};

use crate::columns::Columns;
use crate::decrypt::decrypt;
use crate::encrypt::encrypt;
use crate::expand::expand;
use block::Block;
use cipher::{Cipher, WrongKeyLen};

/// AES-128 with a key, whose round keys are expanded once.
#[derive(Clone, Copy)]
pub struct Aes128 {
    key: [u8; 16],
    round_keys: [Columns; 11],
    ghost expanded: { map state_of round_keys ≡ round_keys_of key },
}

impl Aes128 {
    /// One with the key that is all zero.
    pub fn new() -> Aes128
        ensures { result.key ≡ replicate 16 0 }
    {
        Aes128::keyed([0; 16])
    }

    fn keyed(key: [u8; 16]) -> Aes128
        ensures { result.key ≡ key }
    {
        Aes128 {
            key,
            round_keys: expand(key),
        }
    }
}

impl Cipher for Aes128 {
    ghost scheme = { λ _. aes128 };

    ghost loaded = { λ c. c.key };

    ghost lawful = { λ c. aes128_lawful };

    fn key_len(&self) -> usize {
        self.key.len()
    }

    fn load(&mut self, key: &[u8]) -> Result<(), WrongKeyLen> {
        let key = <[u8; 16]>::try_from(key)?;
        *self = Aes128::keyed(key);
        Ok(())
    }

    fn encipher(&self, block: Block) -> Block {
        Block::from_bytes(encrypt(&self.round_keys, Columns::from(block.to_bytes())).into())
    }

    fn decipher(&self, block: Block) -> Block {
        Block::from_bytes(decrypt(&self.round_keys, Columns::from(block.to_bytes())).into())
    }
}

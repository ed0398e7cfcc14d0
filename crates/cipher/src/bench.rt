// A cipher for the bench.
ghost use Rattle.block.specs.Num.{num};
ghost use Rattle.cipher.specs.Bench.{bench, xored};
ghost use Rattle.std.specs.Prelude.{replicate, ◌≡◌};
ghost use Rattle.cipher.specs.BenchLaws.{bench_lawful};

use crate::{Cipher, WrongKeyLen};
use block::Block;

/// XORs a key of 16 bytes, forwards and backwards.
#[derive(Clone, Copy)]
pub struct Bench {
    key: [u8; 16],
}

impl Bench {
    /// One with the key that is all zero.
    pub fn new() -> Bench
        ensures { result.key ≡ replicate 16 0 }
    {
        Bench { key: [0; 16] }
    }

    fn xor(&self, block: Block) -> Block
        ensures { num result ≡ xored self.now.key (num block) }
    {
        block ^ Block::from_bytes(self.key)
    }
}

impl Cipher for Bench {
    ghost scheme = { λ _. bench };

    ghost loaded = { λ c. c.key };

    ghost lawful = { λ c. bench_lawful };

    fn key_len(&self) -> usize {
        self.key.len()
    }

    fn load(&mut self, key: &[u8]) -> Result<(), WrongKeyLen> {
        self.key = <[u8; 16]>::try_from(key)?;
        Ok(())
    }

    fn encipher(&self, block: Block) -> Block {
        self.xor(block)
    }

    fn decipher(&self, block: Block) -> Block {
        self.xor(block)
    }
}

// A cipher between two blocks.
ghost use Rattle.std.specs.Prelude.{◌<◌, ◌^◌, ◌≡◌};
ghost use Rattle.block.specs.Num.{num};
ghost use Rattle.cipher.specs.Whitened.{whitened};
ghost use Rattle.cipher.specs.WhitenedLaws.{whitened_lawful};

use crate::{Cipher, WrongKeyLen};
use block::Block;

/// Adds one block before the cipher within enciphers, and another one after.
#[derive(Drop)]
pub struct Whitened<C> {
    inner: C,
    before: Block,
    after: Block,
    ghost blocks: { (num before < 2 ^ 128) × (num after < 2 ^ 128) },
}

impl<C> Whitened<C> {
    pub fn new(inner: C, before: Block, after: Block) -> Whitened<C>
        ensures inner { result.inner ≡ inner }
        ensures before { result.before ≡ before }
        ensures after { result.after ≡ after }
    {
        Whitened {
            inner,
            before,
            after,
        }
    }
}

impl<C: Cipher> Cipher for Whitened<C> {
    ghost scheme = { λ w. whitened (num w.before) (num w.after) (C.Cipher.scheme w.inner) };

    ghost loaded = { λ w. C.Cipher.loaded w.inner };

    ghost lawful = { λ w. whitened_lawful (num w.before) (num w.after) w.blocks.0 w.blocks.1 (C.Cipher.scheme w.inner) (C.Cipher.lawful w.inner) };

    fn key_len(&self) -> usize {
        self.inner.key_len()
    }

    fn load(&mut self, key: &[u8]) -> Result<(), WrongKeyLen> {
        self.inner.load(key)
    }

    fn encipher(&self, block: Block) -> Block {
        self.inner.encipher(block ^ self.before) ^ self.after
    }

    fn decipher(&self, block: Block) -> Block {
        self.inner.decipher(block ^ self.after) ^ self.before
    }
}

// A cipher and a multiplier, with the key and the hash key that they hold, and sealing and opening under them.
ghost use Rattle.block.specs.Num.{num};
ghost use Rattle.mode.specs.Keys.{Keyed, keys};
ghost use Rattle.mode.specs.Sealing.{opened_with, pair, sealed_with, streamed_with};
ghost use Rattle.std.specs.Option.{option_copied};
ghost use Rattle.std.specs.Prelude.{◌≡◌, length, is_ok, if◌then◌else◌, Some, None, ◌==◌};

use crate::mismatch::Mismatch;
use crate::sealing;
use block::Block;
use cipher::{Cipher, WrongKeyLen};
use multiplier::Multiplier;

/// A cipher, and the multiplier that holds its hash key once a key is loaded.
///
/// Each call below is that of `sealing`, which takes the two parts lent.
#[derive(Drop)]
pub struct Hbs<C, M> {
    pub cipher: C,
    pub multiplier: M,
}

impl<C: Cipher, M: Multiplier> Hbs<C, M> {
    pub fn new(cipher: C, multiplier: M) -> Hbs<C, M>
        ensures cipher { result.cipher ≡ cipher }
        ensures multiplier { result.multiplier ≡ multiplier }
    {
        Hbs { cipher, multiplier }
    }

    /// Loads a key, and with it the hash key, which is the zero block enciphered. A key of another length is
    /// refused, and alters nothing.
    pub fn load(&mut self, key: &[u8]) -> Result<(), WrongKeyLen>
        ensures fits { is_ok result ≡ (length key.now == (C.scheme self.old.cipher).key_len) }
        ensures keys { Keyed C.Cipher M.Multiplier (is_ok result) key.now self.old self.new }
    {
        sealing::load_key(&mut self.cipher, &mut self.multiplier, key)
    }

    /// Seals `text` in place, and answers the tag.
    pub fn seal(&self, header: Option<&[u8]>, text: &mut [u8]) -> Block
        ensures { pair (num result) text.new ≡ sealed_with (keys C.Cipher M.Multiplier self.now) (option_copied header.entry) text.old }
    {
        sealing::seal(&self.cipher, &self.multiplier, header, text)
    }

    /// Takes the stream off `text` in place. Refused where what is left is not authentic: it still stands in `text`
    /// then, and the caller clears it.
    pub fn open(&self, header: Option<&[u8]>, tag: Block, text: &mut [u8]) -> Result<(), Mismatch>
        ensures opens { (if is_ok result then Some text.new else None) ≡ opened_with (keys C.Cipher M.Multiplier self.now) (option_copied header.entry) (pair (num tag) text.old) }
        ensures leaves { text.new ≡ streamed_with (keys C.Cipher M.Multiplier self.now) (num tag) text.old }
    {
        sealing::open(&self.cipher, &self.multiplier, header, tag, text)
    }
}

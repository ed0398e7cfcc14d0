// Block ciphers, by what they mean.
#![tactic(auto)]

pub mod bench;
pub mod whitened;
pub mod wrong_key_len;

ghost use Rattle.std.specs.Prelude.{ℕ, length, is_ok, List, OnErr, OnOk, ◌==◌, ◌≡◌};
ghost use Rattle.block.specs.Num.{num};
ghost use Rattle.cipher.specs.Scheme.{Lawful, Scheme};

use block::Block;
pub use wrong_key_len::WrongKeyLen;

/// A block cipher that holds a key. Its scheme, which is the key's length and the two maps, is fixed when it is made.
pub trait Cipher {
    ghost scheme: { Self → Scheme };

    // the key held
    ghost loaded: { Self → List ℕ };

    /// How many bytes a key has.
    fn key_len(&self) -> usize
        ensures { result ≡ (scheme self.now).key_len };

    /// Sets the key; one of another length is refused, and alters nothing.
    fn load(&mut self, key: &[u8]) -> Result<(), WrongKeyLen>
        ensures fits { is_ok result ≡ (length key.now == (scheme self.old).key_len) }
        ensures scheme { scheme self.new ≡ scheme self.old }
        ensures sets { OnOk result (loaded self.new ≡ key.now) }
        ensures alters { OnErr result (self.new ≡ self.old) };

    /// The block enciphered under the key held.
    fn encipher(&self, block: Block) -> Block
        ensures { num result ≡ (scheme self.now).enc (loaded self.now) (num block) };

    /// The block deciphered under the key held.
    fn decipher(&self, block: Block) -> Block
        ensures { num result ≡ (scheme self.now).dec (loaded self.now) (num block) };

    ghost lawful: { (c : Self) → Lawful (scheme c) };
}

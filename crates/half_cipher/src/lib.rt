// Ciphers on halves of a block, by what they mean.
#![tactic(auto)]

pub mod speck;
mod words;
pub mod xtea;

ghost use Rattle.half_cipher.specs.Maps.{HalfMaps, LawfulHalf};
ghost use Rattle.std.specs.Prelude.{◌≡◌};

/// The key of a half cipher.
pub type HalfKey = [u8; 16];

/// A cipher on eight bytes that holds no key: each call is handed one. A half is the number that its eight bytes
/// spell, the first of them most significant.
pub trait HalfCipher {
    ghost maps: { Self → HalfMaps };

    /// The half enciphered under the key.
    fn forward(&self, key: &HalfKey, half: u64) -> u64
        ensures { result ≡ (maps self.now).forward key.now half };

    /// The half deciphered under the key.
    fn backward(&self, key: &HalfKey, half: u64) -> u64
        ensures { result ≡ (maps self.now).backward key.now half };

    ghost lawful: { (h : Self) → LawfulHalf (maps h) };
}

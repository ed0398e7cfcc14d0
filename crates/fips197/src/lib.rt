// The substitutions of bytes of FIPS 197, and what is proved of its cipher.
#![tactic(auto)]

mod inv_sbox;
mod sbox;

ghost use Rattle.fips197.specs.Bytes.{back_sub, inv_sub_small, sub_back, sub_small};
ghost use Rattle.fips197.specs.Sbox.{inv_sub_byte, sub_byte};
ghost use Rattle.fips197.specs.Theorems.{CipherLaws, Examples, Inverts, IsUndone, SboxLaws, TakesBytes};
ghost use Rattle.std.specs.Prelude.{◌≡◌, ℕ};

use crate::inv_sbox::INV_SBOX;
use crate::sbox::SBOX;

/// A substitution of bytes, which another undoes.
pub trait Substitution {
    ghost rule: { ℕ → ℕ };

    ghost undo: { ℕ → ℕ };

    /// The byte in the place of `a`.
    fn of(a: u8) -> u8
        ensures { result ≡ rule a };

    /// Bytes become bytes ..
    ghost byte: { TakesBytes rule };

    /// .. and `undo` gives each of them back.
    ghost undone: { IsUndone rule undo };
}

/// SubBytes on a byte.
pub struct SubBytes;

impl Substitution for SubBytes {
    ghost rule = { sub_byte };

    ghost undo = { inv_sub_byte };

    ghost byte = { sub_small };

    ghost undone = { sub_back };

    fn of(a: u8) -> u8 {
        SBOX[a as usize]
    }
}

/// InvSubBytes on a byte.
pub struct InvSubBytes;

impl Substitution for InvSubBytes {
    ghost rule = { inv_sub_byte };

    ghost undo = { sub_byte };

    ghost byte = { inv_sub_small };

    ghost undone = { back_sub };

    fn of(a: u8) -> u8 {
        INV_SBOX[a as usize]
    }
}

/// States that the inverse inverts, and that the two substitutions undo each other.
pub fn byte_laws()
    ensures { (Inverts) × (SboxLaws) }
{}

/// States that enciphering and deciphering undo each other.
pub fn cipher_laws()
    ensures { CipherLaws }
{}

/// States the worked examples.
pub fn examples()
    ensures { Examples }
{}

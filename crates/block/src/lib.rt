// Blocks of sixteen bytes, and their arithmetic in the field of 2^128 elements.
#![tactic(auto)]

ghost use Rattle.std.specs.Prelude.{◌≡◌, ◌+◌, ◌*◌, ◌/◌, ◌%◌, ◌^◌, ◌==◌, bit_xor};
ghost use Rattle.block.specs.Bytes.{bytes as spelling, spelled, words_of};
ghost use Rattle.block.specs.Field.{double, product};
ghost use Rattle.block.specs.Num.{num};
ghost use Rattle.block.specs.Theorems.{ByteLaws, FieldLaws};
ghost use Rattle.std.specs.Cmp.Rules.{comparing};
ghost use Rattle.std.proofs.Common.{rules};
ghost use Rattle.std.specs.Cmp as Keys;

use std::ops::BitXor;

/// Sixteen bytes as two words, the first byte most significant.
#[derive(Clone, Copy, Debug)]
pub struct Block {
    hi: u64,
    lo: u64,
}

/// Two times eight bytes, each as a number.
pub type Halves = (u64, u64);

impl Block {
    pub const ZERO: Block = Block { hi: 0, lo: 0 };

    pub const ONE: Block = Block { hi: 0, lo: 1 };

    // bytes and halves by name and no From: the names say the order, as those of from_be_bytes and to_be_bytes do
    pub fn from_bytes(bytes: [u8; 16]) -> Block
        ensures { num result ≡ spelled bytes }
    {
        let [a, b, c, d, e, f, g, h, i, j, k, l, m, n, o, p] = bytes;
        Block {
            hi: u64::from_be_bytes([a, b, c, d, e, f, g, h]),
            lo: u64::from_be_bytes([i, j, k, l, m, n, o, p]),
        }
    }

    pub fn to_bytes(self) -> [u8; 16]
        ensures { result ≡ spelling 16 (num self) }
    {
        let [a, b, c, d, e, f, g, h] = self.hi.to_be_bytes();
        let [i, j, k, l, m, n, o, p] = self.lo.to_be_bytes();
        [a, b, c, d, e, f, g, h, i, j, k, l, m, n, o, p]
    }

    /// The block's two halves, the first one most significant.
    pub fn halves(self) -> Halves
        ensures { result ≡ (num self / 2 ^ 64, num self % 2 ^ 64) }
    {
        (self.hi, self.lo)
    }

    pub fn from_halves(halves: Halves) -> Block
        ensures { num result ≡ halves.0 * 2 ^ 64 + halves.1 }
    {
        let (hi, lo) = halves;
        Block { hi, lo }
    }

    /// Shifts left by one bit and, where a one falls out, reduces by 0x87.
    pub fn double(self) -> Block
        ensures { num result ≡ double (num self) }
    {
        let mask = (self.hi >> 63).wrapping_neg();
        Block {
            hi: (self.hi << 1) | (self.lo >> 63),
            lo: (self.lo << 1) ^ (mask & 0x87),
        }
    }

    /// Half the number, rounded down.
    fn half(self) -> Block
        ensures { num result ≡ num self / 2 }
    {
        Block {
            hi: self.hi >> 1,
            lo: (self.hi << 63) | (self.lo >> 1),
        }
    }

    /// The product in the field: each one bit of `other` adds `self`, doubled once for every bit below it.
    pub fn product(self, other: Block) -> Block
        ensures { num result ≡ product (num self) (num other) }
    {
        let mut sum = Block::ZERO;
        let mut doubled = self;
        let mut rest = other;
        for _ in 0..128u32 {
            if rest.lo % 2 == 1 {
                sum = sum ^ doubled;
            }
            doubled = doubled.double();
            rest = rest.half();
        }
        sum
    }
}

/// Sixteen bytes as four words, the first byte of each most significant.
pub fn be_words(bytes: [u8; 16]) -> [u32; 4]
    ensures { result ≡ words_of bytes }
{
    let [a, b, c, d, e, f, g, h, i, j, k, l, m, n, o, p] = bytes;
    [
        u32::from_be_bytes([a, b, c, d]),
        u32::from_be_bytes([e, f, g, h]),
        u32::from_be_bytes([i, j, k, l]),
        u32::from_be_bytes([m, n, o, p]),
    ]
}

impl From<u64> for Block {
    ghost from_gives = { λ n b. num b ≡ n };

    fn from(n: u64) -> Block {
        Block { hi: 0, lo: n }
    }
}

impl BitXor<Block> for Block {
    type Output = Block;

    ghost bitxor_gives = { λ a b r. num r ≡ bit_xor (num a) (num b) };

    fn bitxor(self, rhs: Block) -> Block {
        Block {
            hi: self.hi ^ rhs.hi,
            lo: self.lo ^ rhs.lo,
        }
    }
}

// by hand: a derived `==` would promise that two private words are equal, and callers are promised equal numbers
impl PartialEq for Block {
    ghost eq = { λ a b. (num a == num b) };

    ghost laws = { Keys.partial_equiv_from_equiv (Prim.search (comparing, rules)) };

    fn eq(&self, other: &Block) -> bool {
        (self.hi == other.hi) & (self.lo == other.lo)
    }
}

impl Eq for Block {
    ghost laws = { Prim.search (comparing, rules) };
}

/// States the laws of the field.
pub fn field_laws()
    ensures { FieldLaws }
{}

/// States that sixteen bytes and the number that they spell determine each other.
pub fn byte_laws()
    ensures { ByteLaws }
{}

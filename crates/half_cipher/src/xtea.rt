// XTEA with 32 cycles (Needham and Wheeler, 1997).
ghost use Rattle.half_cipher.specs.Xtea.{addend, cycle_at, mixed, sum_at, uncycle_at, xtea};
ghost use Rattle.std.specs.Prelude.{◌≡◌};
ghost use Rattle.half_cipher.specs.XteaLaws.{xtea_lawful};

use crate::words::{Words, join, split};
use crate::{HalfCipher, HalfKey};
use block::be_words;

const CYCLES: u32 = 32;

const DELTA: u32 = 0x9e37_79b9;

#[derive(Clone, Copy)]
pub struct Xtea;

/// What a word gives to the other one, under a sum and a word of the key.
fn mix(v: u32, sum: u32, k: u32) -> u32
    ensures { result ≡ mixed v sum k }
{
    ((v << 4) ^ (v >> 5)).wrapping_add(v) ^ sum.wrapping_add(k)
}

/// What one word adds to the other, under the sum and the word of the key that two bits of `choice` name.
fn addend(k: &[u32; 4], sum: u32, choice: u32, v: u32) -> u32
    ensures { result ≡ addend k.now sum choice v }
{
    mix(v, sum, k[(choice & 3) as usize])
}

/// The sum before cycle `i`.
fn sum_at(i: u32) -> u32
    ensures { result ≡ sum_at i }
{
    i.wrapping_mul(DELTA)
}

/// Cycle `i`, from the sum before it to the sum after it.
fn cycle_at(k: &[u32; 4], i: u32, v: Words) -> Words
    ensures { result ≡ cycle_at k.now i v }
{
    let before = sum_at(i);
    let after = before.wrapping_add(DELTA);
    let (v0, v1) = v;
    let v0 = v0.wrapping_add(addend(k, before, before, v1));
    let v1 = v1.wrapping_add(addend(k, after, after >> 11, v0));
    (v0, v1)
}

/// Cycle `i` undone.
fn undo_cycle(k: &[u32; 4], i: u32, v: Words) -> Words
    ensures { result ≡ uncycle_at k.now i v }
{
    let before = sum_at(i);
    let after = before.wrapping_add(DELTA);
    let (v0, v1) = v;
    let v1 = v1.wrapping_sub(addend(k, after, after >> 11, v0));
    let v0 = v0.wrapping_sub(addend(k, before, before, v1));
    (v0, v1)
}

impl HalfCipher for Xtea {
    ghost maps = { λ _. xtea };

    ghost lawful = { λ h. xtea_lawful };

    fn forward(&self, key: &HalfKey, half: u64) -> u64 {
        let k = be_words(*key);
        join((0..CYCLES).fold(split(half), |v, i| cycle_at(&k, i, v)))
    }

    fn backward(&self, key: &HalfKey, half: u64) -> u64 {
        let k = be_words(*key);
        join((0..CYCLES).rfold(split(half), |v, i| undo_cycle(&k, i, v)))
    }
}

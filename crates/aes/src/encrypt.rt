// Cipher: a round takes each byte of a column through a table that substitutes and mixes at once.
ghost use Rattle.aes.specs.Columns.{byte_at, mix_word, state_of};
ghost use Rattle.fips197.specs.Cipher.{cipher};
ghost use Rattle.fips197.specs.Sbox.{sub_byte};
ghost use Rattle.fips197.specs.State.{mix_columns, shift_rows, sub_bytes};
ghost use Rattle.std.specs.Prelude.{◌≡◌, map};

use crate::columns::{Columns, row, substituted};
use aes_tables::sub_mix;
use fips197::SubBytes;

/// A column of a round, before the round key is added: its rows are from four columns.
fn mixed(x: u32, y: u32, z: u32, v: u32) -> u32
    ensures { result ≡ mix_word 2 3 1 1 (sub_byte (byte_at 0 x)) (sub_byte (byte_at 1 y)) (sub_byte (byte_at 2 z)) (sub_byte (byte_at 3 v)) }
{
    (sub_mix::<0>(row::<0>(x)) ^ sub_mix::<1>(row::<1>(y)))
        ^ (sub_mix::<2>(row::<2>(z)) ^ sub_mix::<3>(row::<3>(v)))
}

fn round(s: Columns) -> Columns
    ensures { state_of result ≡ mix_columns (shift_rows (sub_bytes (state_of s))) }
{
    s.shift_rows(mixed)
}

/// The last round, which does not mix.
fn last_round(s: Columns) -> Columns
    ensures { state_of result ≡ shift_rows (sub_bytes (state_of s)) }
{
    s.shift_rows(substituted::<SubBytes>)
}

pub fn encrypt(keys: &[Columns; 11], s: Columns) -> Columns
    ensures { state_of result ≡ cipher (map state_of keys.now) (state_of s) }
{
    let mut t = s ^ keys[0];
    for key in &keys[1..10] {
        t = round(t) ^ *key;
    }
    last_round(t) ^ keys[10]
}

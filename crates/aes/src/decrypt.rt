// InvCipher, its steps in the standard's order.
ghost use Rattle.aes.specs.Columns.{byte_at, mix_word, state_of};
ghost use Rattle.fips197.specs.Cipher.{inv_cipher};
ghost use Rattle.fips197.specs.State.{inv_mix_columns, inv_shift_rows, inv_sub_bytes};
ghost use Rattle.std.specs.Prelude.{◌≡◌, map};

use crate::columns::{Columns, substituted};
use aes_tables::inv_mix;
use fips197::InvSubBytes;

/// InvMixColumns on a column.
fn inv_mixed(x: u32) -> u32
    ensures { result ≡ mix_word 0x0e 0x0b 0x0d 0x09 (byte_at 0 x) (byte_at 1 x) (byte_at 2 x) (byte_at 3 x) }
{
    let [a, b, c, d] = x.to_be_bytes();
    (inv_mix::<0>(a) ^ inv_mix::<1>(b)) ^ (inv_mix::<2>(c) ^ inv_mix::<3>(d))
}

fn inv_mix_columns(s: Columns) -> Columns
    ensures { state_of result ≡ inv_mix_columns (state_of s) }
{
    let [a, b, c, d] = s.0;
    Columns([inv_mixed(a), inv_mixed(b), inv_mixed(c), inv_mixed(d)])
}

/// InvShiftRows, which is ShiftRows with the columns the other way round, and then InvSubBytes.
fn turned(s: Columns) -> Columns
    ensures { state_of result ≡ inv_sub_bytes (inv_shift_rows (state_of s)) }
{
    s.shift_rows(|a, b, c, d| substituted::<InvSubBytes>(a, d, c, b))
}

pub fn decrypt(keys: &[Columns; 11], s: Columns) -> Columns
    ensures { state_of result ≡ inv_cipher (map state_of keys.now) (state_of s) }
{
    let mut t = s ^ keys[10];
    for key in keys[1..10].iter().rev() {
        t = inv_mix_columns(turned(t) ^ *key);
    }
    turned(t) ^ keys[0]
}

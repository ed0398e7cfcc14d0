// The key expansion, on words.
ghost use Rattle.aes.specs.Columns.{byte_at, state_of};
ghost use Rattle.aes_tables.specs.Words.{word};
ghost use Rattle.fips197.specs.Field.{xtime};
ghost use Rattle.fips197.specs.KeyExpansion.{next_key_of, round_keys_of};
ghost use Rattle.fips197.specs.Sbox.{sub_byte};
ghost use Rattle.std.specs.Prelude.{◌≡◌, map, bit_xor};

use crate::columns::Columns;
use fips197::{SubBytes, Substitution};

/// The next round's constant.
fn doubled(rcon: u8) -> u8
    ensures { result ≡ xtime rcon }
{
    (rcon << 1) ^ ((rcon >> 7) * 0x1b)
}

/// SubWord of RotWord, and the round's constant.
fn turned(rcon: u8, x: u32) -> u32
    ensures { result ≡ word (bit_xor (sub_byte (byte_at 1 x)) rcon) (sub_byte (byte_at 2 x)) (sub_byte (byte_at 3 x)) (sub_byte (byte_at 0 x)) }
{
    let [a, b, c, d] = x.to_be_bytes();
    u32::from_be_bytes([
        SubBytes::of(b) ^ rcon,
        SubBytes::of(c),
        SubBytes::of(d),
        SubBytes::of(a),
    ])
}

/// The round key after `w`.
fn next_key(rcon: u8, w: Columns) -> Columns
    ensures { state_of result ≡ next_key_of rcon (state_of w) }
{
    let [a, b, c, d] = w.0;
    let a = a ^ turned(rcon, d);
    let b = b ^ a;
    let c = c ^ b;
    let d = d ^ c;
    Columns([a, b, c, d])
}

pub fn expand(key: [u8; 16]) -> [Columns; 11]
    ensures { map state_of result ≡ round_keys_of key }
{
    let mut key = Columns::from(key);
    let mut keys = [key; 11];
    let mut rcon = 1;
    for next in &mut keys[1..] {
        key = next_key(rcon, key);
        *next = key;
        rcon = doubled(rcon);
    }
    keys
}

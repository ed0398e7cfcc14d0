// Tables: the column that one byte makes, in each of its four rows.
#![tactic(auto)]

mod inv_mix_table;
mod sub_mix_table;

ghost use Rattle.aes_tables.specs.Words.{spread_from};
ghost use Rattle.fips197.specs.Sbox.{sub_byte};
ghost use Rattle.std.specs.Prelude.{◌≡◌};

use crate::inv_mix_table::INV_MIX;
use crate::sub_mix_table::SUB_MIX;

/// What `a`, substituted, adds to its column by MixColumns from row `ROW`, which goes round after the last.
pub fn sub_mix<const ROW: usize>(a: u8) -> u32
    ensures { result ≡ spread_from ROW 2 1 1 3 (sub_byte a) }
{
    SUB_MIX[ROW % 4][a as usize]
}

/// What `a` adds to its column by InvMixColumns from row `ROW`, which goes round after the last.
pub fn inv_mix<const ROW: usize>(a: u8) -> u32
    ensures { result ≡ spread_from ROW 0x0e 0x09 0x0d 0x0b a }
{
    INV_MIX[a as usize].rotate_right(8 * (ROW % 4) as u32)
}

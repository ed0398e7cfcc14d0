// The state as four words, each a column, its first row in the highest byte.
ghost use Rattle.aes.specs.Columns.{byte_at, Shifted, state_of};
ghost use Rattle.aes_tables.specs.Words.{word};
ghost use Rattle.fips197.specs.State.{add_round_key};
ghost use Rattle.std.specs.Prelude.{◌≡◌, ◌%◌};

use block::be_words;
use fips197::Substitution;
use std::ops::BitXor;

/// The state, and a round key.
#[derive(Clone, Copy)]
pub struct Columns(pub [u32; 4]);

impl From<[u8; 16]> for Columns {
    ghost from_gives = { λ bytes s. state_of s ≡ bytes };

    fn from(bytes: [u8; 16]) -> Columns {
        Columns(be_words(bytes))
    }
}

impl From<Columns> for [u8; 16] {
    ghost from_gives = { λ s bytes. bytes ≡ state_of s };

    fn from(s: Columns) -> [u8; 16] {
        let [x, y, z, v] = s.0;
        let [a, b, c, d] = x.to_be_bytes();
        let [e, f, g, h] = y.to_be_bytes();
        let [i, j, k, l] = z.to_be_bytes();
        let [m, n, o, p] = v.to_be_bytes();
        [a, b, c, d, e, f, g, h, i, j, k, l, m, n, o, p]
    }
}

/// AddRoundKey.
impl BitXor for Columns {
    type Output = Columns;

    ghost bitxor_gives = { λ s w r. state_of r ≡ add_round_key (state_of w) (state_of s) };

    fn bitxor(self, w: Columns) -> Columns {
        let [a, b, c, d] = self.0;
        let [e, f, g, h] = w.0;
        Columns([a ^ e, b ^ f, c ^ g, d ^ h])
    }
}

impl Columns {
    /// ShiftRows, where `column` makes each new column of the four that its rows are from.
    pub(crate) fn shift_rows<F: Fn(u32, u32, u32, u32) -> u32>(self, column: F) -> Columns
        requires { F.IsAlwaysCallable column }
        ensures { Shifted (F.post column) self.0 result.0 }
    {
        let [a, b, c, d] = self.0;
        Columns([
            column(a, b, c, d),
            column(b, c, d, a),
            column(c, d, a, b),
            column(d, a, b, c),
        ])
    }
}

/// The byte of a column in row `ROW`, which goes round after the last.
pub(crate) fn row<const ROW: usize>(x: u32) -> u8
    ensures { result ≡ byte_at (ROW % 4) x }
{
    x.to_be_bytes()[ROW % 4]
}

/// A column whose rows are from four columns, each byte substituted.
pub(crate) fn substituted<S: Substitution>(x: u32, y: u32, z: u32, v: u32) -> u32
    ensures { result ≡ word (S.rule (byte_at 0 x)) (S.rule (byte_at 1 y)) (S.rule (byte_at 2 z)) (S.rule (byte_at 3 v)) }
{
    u32::from_be_bytes([
        S::of(row::<0>(x)),
        S::of(row::<1>(y)),
        S::of(row::<2>(z)),
        S::of(row::<3>(v)),
    ])
}

// Halves as words of 32 bits, big-endian.
ghost use Rattle.half_cipher.specs.Pairs.{joined, parted};
ghost use Rattle.std.specs.Prelude.{◌≡◌};

/// The two words of a half, the first one most significant.
// split and join by name and no From: a pair says nothing of an order, and a struct would be taken apart in each round
pub(crate) type Words = (u32, u32);

pub(crate) fn split(half: u64) -> Words
    ensures { result ≡ parted 32 half }
{
    let [a, b, c, d, e, f, g, h] = half.to_be_bytes();
    (
        u32::from_be_bytes([a, b, c, d]),
        u32::from_be_bytes([e, f, g, h]),
    )
}

pub(crate) fn join(v: Words) -> u64
    ensures { result ≡ joined 32 v }
{
    let [a, b, c, d] = v.0.to_be_bytes();
    let [e, f, g, h] = v.1.to_be_bytes();
    u64::from_be_bytes([a, b, c, d, e, f, g, h])
}

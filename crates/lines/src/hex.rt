//! Bytes in hex: two digits to a byte, and a lone dot for no bytes.

ghost use Rattle.std.specs.Prelude.{◌≡◌, ◌<◌, ◌==◌, if◌then◌else◌, length, IfSome, IfOk, Some, vec_items, string_bytes};
ghost use Rattle.lines.specs.Answers.{Answers, and_then};
ghost use Rattle.lines.specs.Hex.{digit_of, byte_of, decoded, reading, digits, encoded, ReadsBack};
ghost use Rattle.lines.specs.Laws.{WrapsReadBack, UnwrapsReadBack};

use crate::fault::{Field, LineFault};
use std::alloc::{AllocError, Global};

/// The value of a hex digit, of either case.
fn digit(c: u8) -> Option<u32>
    ensures value { result ≡ digit_of c }
    ensures bound { IfSome result (λ d. d < 16) }
{
    char::from(c).to_digit(16)
}

/// The byte that two digits write.
fn byte(high: u8, low: u8) -> Option<u8>
    ensures { result ≡ byte_of high low }
{
    Some((16 * digit(high)? + digit(low)?) as u8)
}

/// The bytes that the text of a field writes in hex. A fault names the field.
#[tactic(auto, using(crate::proofs::Decoding::reading_odd, crate::proofs::Decoding::paired_chunks))]
pub fn decode(heap: Global, field: Field, text: &[u8]) -> Result<Vec<u8>, LineFault>
    ensures { Answers vec_items result (reading field text.now) }
{
    if text == b".".as_slice() {
        return Ok(Vec::new(heap));
    }
    let (pairs, []) = text.as_chunks::<2>() else {
        return Err(LineFault::OddDigits(field));
    };
    let mut bytes = Vec::with_capacity(heap, pairs.len())?;
    for [high, low] in pairs {
        bytes.push(byte(*high, *low).ok_or(LineFault::NotHex(field))?)?;
    }
    Ok(bytes)
}

/// The N bytes that the text of a field writes in hex, or `None` where it writes more or fewer.
pub fn decode_array<const N: usize>(
    heap: Global,
    field: Field,
    text: &[u8],
) -> Result<Option<[u8; N]>, LineFault>
    ensures { Answers (λ o. o) result (and_then (reading field text.now) (λ bs. Ok (if length bs == N then Some bs else None))) }
{
    Ok(<[u8; N]>::try_from(decode(heap, field, text)?.as_slice()).ok())
}

/// The digits of bytes.
fn digits_of(heap: Global, bytes: &[u8]) -> Result<String, AllocError>
    ensures { IfOk result (λ s. string_bytes s ≡ digits bytes.now) }
{
    let mut text = String::new(heap);
    for b in bytes {
        text.push(char::from_digit(u32::from(*b / 16), 16).unwrap())?;
        text.push(char::from_digit(u32::from(*b % 16), 16).unwrap())?;
    }
    Ok(text)
}

/// Bytes as text in hex, in lower case.
#[tactic(auto, using(crate::proofs::Encoding::reads_back, crate::proofs::ReadBack::wraps_read_back, crate::proofs::ReadBack::unwraps_read_back))]
pub fn encode(heap: Global, bytes: &[u8]) -> Result<String, AllocError>
    ensures text { IfOk result (λ s. string_bytes s ≡ encoded bytes.now) }
    ensures undone { IfOk result (λ s. decoded (string_bytes s) ≡ Some bytes.now) }
    ensures law { ReadsBack }
    ensures lines { (WrapsReadBack) × (UnwrapsReadBack) }
{
    if bytes.is_empty() {
        String::from_str(heap, ".")
    } else {
        digits_of(heap, bytes)
    }
}

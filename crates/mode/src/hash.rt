// The hash of a header and a message.
ghost use Rattle.block.specs.Num.{num};
ghost use Rattle.mode.specs.Hash.{hash as hashed, header_squared, poly, squared};
ghost use Rattle.mode.specs.Padding.{padded};
ghost use Rattle.std.specs.Option.{option_copied};
ghost use Rattle.std.specs.Prelude.{◌≡◌};

use crate::padding::{filled, is_whole};
use block::Block;
use multiplier::Multiplier;

/// The polynomial of a string's padded blocks, by Horner's rule.
fn polynomial<M: Multiplier>(multiplier: &M, text: &[u8]) -> Block
    ensures { num result ≡ poly (M.element multiplier.now) (padded text.now) }
{
    let (blocks, rest) = text.as_chunks::<16>();
    let mut sum = Block::ONE;
    for block in blocks {
        sum = multiplier.times(sum) ^ Block::from_bytes(*block);
    }
    if !is_whole(text) {
        sum = multiplier.times(sum) ^ filled(rest);
    }
    sum
}

/// The square of a string's polynomial, times the factor of its padding.
fn square<M: Multiplier>(multiplier: &M, text: &[u8]) -> Block
    ensures { num result ≡ squared (M.element multiplier.now) text.now }
{
    let z = polynomial(multiplier, text);
    let square = z.product(z);
    if is_whole(text) {
        square.double()
    } else {
        square
    }
}

/// What a header brings: an absent one nothing.
fn header_square<M: Multiplier>(multiplier: &M, header: Option<&[u8]>) -> Block
    ensures { num result ≡ header_squared (M.element multiplier.now) (option_copied header.entry) }
{
    match header {
        Some(header) => square(multiplier, header),
        None => Block::ZERO,
    }
}

/// The hash of a header, which may be absent, and a message, under the element held.
pub fn hash<M: Multiplier>(multiplier: &M, header: Option<&[u8]>, message: &[u8]) -> Block
    ensures { num result ≡ hashed (M.element multiplier.now) (option_copied header.entry) message.now }
{
    let of_message = multiplier.times(square(multiplier, message));
    multiplier.times(header_square(multiplier, header) ^ of_message)
}

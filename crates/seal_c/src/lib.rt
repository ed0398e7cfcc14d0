// Wrap and unwrap over AES-128, for C: buffers as pointers with lengths, and a refusal's number as the answer.
#![tactic(auto)]

ghost use Rattle.aes.specs.Scheme.{aes128};
ghost use Rattle.seal.specs.Answers.{answered};
ghost use Rattle.seal.specs.Wrapping.{Unwrapped, Wrapped};
ghost use Rattle.seal_c.specs.Header.{flagged};
ghost use Rattle.std.specs.Option.{option_copied};
ghost use Rattle.std.specs.Prelude.{◌≡◌};

use aes::aes128::Aes128;
use mode::hbs::Hbs;
use multiplier::{Doubling, Multiplier};
use seal::fault::SealFault;
use seal::wrapping::{unwrap, wrap};

/// A header, where the flag says that there is one.
fn present(has_header: bool, header: &[u8]) -> Option<&[u8]>
    ensures { option_copied result ≡ flagged has_header header.now }
{
    // a flag beside a value: the C interface has no other way to say that there is none
    has_header.then_some(header)
}

/// The number that C is answered.
fn number(answer: Result<(), SealFault>) -> u32
    ensures { result ≡ answered answer }
{
    // a number for a refusal: the C interface asks for it
    match answer {
        Ok(()) => 0,
        Err(fault) => fault.number(),
    }
}

/// Seals the text in place under the key, and writes the tag.
#[unsafe(no_mangle)]
pub extern "C" fn yotskheni_wrap(
    key: &[u8],
    has_header: bool,
    header: &[u8],
    tag: &mut [u8],
    text: &mut [u8],
) -> u32
    ensures { Wrapped aes128 key.now (flagged has_header header.now) tag.old text.old result tag.new text.new }
{
    let mut hbs = Hbs::new(Aes128::new(), Doubling::new());
    number(wrap(&mut hbs, key, present(has_header, header), tag, text))
}

/// Opens the text in place under the key.
#[unsafe(no_mangle)]
pub extern "C" fn yotskheni_unwrap(
    key: &[u8],
    has_header: bool,
    header: &[u8],
    tag: &[u8],
    text: &mut [u8],
) -> u32
    ensures { Unwrapped aes128 key.now (flagged has_header header.now) tag.now text.old result text.new }
{
    let mut hbs = Hbs::new(Aes128::new(), Doubling::new());
    number(unwrap(&mut hbs, key, present(has_header, header), tag, text))
}

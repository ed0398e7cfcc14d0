//! The answers to lines, over a cipher and a multiplier that are lent.

ghost use Rattle.std.specs.Prelude.{◌≡◌, IfOk, string_bytes};

use crate::text;
use crate::wrapping::Answered;
use cipher::Cipher;
use lines::fault::LineFault;
use multiplier::Multiplier;
use std::alloc::{AllocError, Global};

/// Answers a line that is to be a request of one form, or says what is wrong with it.
///
/// An error is want of memory. Which key is then held is left open: each line brings its own.
pub fn answer<R: Answered, C: Cipher, M: Multiplier>(
    heap: Global,
    cipher: &mut C,
    multiplier: &mut M,
    number: u64,
    line: &[u8],
) -> Result<String, AllocError>
    ensures answers { IfOk result (λ t. string_bytes t ≡ R.answers (C.scheme cipher.old) number line.now) }
    ensures scheme { C.scheme cipher.new ≡ C.scheme cipher.old }
{
    match R::parse(heap, line) {
        Ok(request) => request.reply_lent(heap, cipher, multiplier),
        Err(LineFault::NoMemory) => Err(AllocError),
        Err(fault) => text::malformed(heap, number, fault),
    }
}

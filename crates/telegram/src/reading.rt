// Reading a telegram.
ghost use Rattle.std.specs.Prelude.{◌≡◌, Err, MatchResult};
ghost use Rattle.telegram.specs.Calls.{Read};
ghost use Rattle.telegram.specs.Format.{reading};

use crate::fault::TelegramFault;
use crate::parts::{Fields, Places};
use crate::sizes::{Sizes, TAG_BYTES, length_of};

/// The version that is read and written.
pub const VERSION: u8 = 1;

/// The parts of a telegram.
///
/// Refused by `Version` where a first byte is not 1, and else by `Lengths` where a length is out of its
/// range or the lengths do not add up to the buffer's exactly.
pub fn fields(buffer: &[u8]) -> Result<Fields<'_>, TelegramFault>
    ensures { MatchResult result (Read buffer.now) (λ fault. reading buffer.now ≡ Err fault) }
{
    let (header_len, rest) = match buffer {
        [VERSION, hi, lo, rest @ ..] => (length_of(*hi, *lo), rest),
        [] | [VERSION, ..] => return Err(TelegramFault::Lengths),
        _ => return Err(TelegramFault::Version),
    };
    let Some((header, [hi, lo, sealed @ ..])) = rest.split_at_checked(header_len) else {
        return Err(TelegramFault::Lengths);
    };
    let sizes = Sizes::new(header_len, length_of(*hi, *lo))?;
    if sealed.len() != TAG_BYTES + sizes.message {
        return Err(TelegramFault::Lengths);
    }
    let (tag, ciphertext) = sealed.split_at(TAG_BYTES);
    Ok(Fields {
        header,
        tag,
        ciphertext,
        places: Places::from(sizes),
    })
}

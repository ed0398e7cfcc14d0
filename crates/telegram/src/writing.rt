// Writing a telegram's frame.
ghost use Rattle.std.specs.Prelude.{◌≡◌, length, Err, MatchResult};
ghost use Rattle.telegram.specs.Calls.{Framed, framing, placing};
ghost use Rattle.telegram.specs.Header.{heading};

use crate::fault::TelegramFault;
use crate::header::Header;
use crate::parts::Places;
use crate::reading::VERSION;
use crate::sizes::{HEADER_START, Sizes, length_bytes};

/// Where the parts lie in a telegram with this header and a message of `message_len` bytes. The telegram ends with its
/// ciphertext.
///
/// Refused by `Lengths` where the note or the message is too long.
pub fn places(header: &Header<'_>, message_len: usize) -> Result<Places, TelegramFault>
    ensures { result ≡ placing (length header.now.note.now) message_len }
{
    let sizes = Sizes::new(header.size()?, message_len)?;
    Ok(Places::from(sizes))
}

/// Writes the frame of a telegram that fills `out`: all but the tag and the ciphertext, which stay as they stand.
///
/// The message is as long as what `out` leaves for it. Refused by `Lengths` where the note is longer than 1,018
/// bytes, `out` has no room for the frame, or leaves more than 4,096 bytes; then `out` is as it was.
pub fn write_frame(out: &mut [u8], header: &Header<'_>) -> Result<Places, TelegramFault>
    ensures { MatchResult result (λ places. Framed (heading header.now) out.old places out.new) (λ fault. (framing (heading header.now) out.old ≡ Err fault) × (out.new ≡ out.old)) }
{
    let sizes = Sizes::filling(header.size()?, out.len())?;
    let places = Places::from(sizes);
    let [hi, lo] = length_bytes(sizes.header);
    out[0..HEADER_START].copy_from_slice(&[VERSION, hi, lo]);
    header.put(&mut out[HEADER_START..places.header.end]);
    out[places.header.end..places.tag.start].copy_from_slice(&length_bytes(sizes.message));
    Ok(places)
}

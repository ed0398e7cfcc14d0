// The sizes of a telegram's parts, and lengths as a telegram writes them.
ghost use Rattle.std.specs.Prelude.{◌≡◌, ◌+◌, ◌*◌, ◌^◌, ◌<◌, ◌≤◌, false, MatchResult, ◌&&◌, nat_le};
ghost use Rattle.telegram.specs.Calls.{roomy};
ghost use Rattle.telegram.specs.Format.{header_sized, two};
ghost use Rattle.telegram.specs.declared.fault.TelegramFault.TheVariants.{Lengths};

use crate::fault::TelegramFault;

/// A header has so many bytes before its note.
pub const MIN_HEADER: usize = 6;

/// The longest header, in bytes.
pub const MAX_HEADER: usize = 1024;

/// The longest note, in bytes.
pub const MAX_NOTE: usize = MAX_HEADER - MIN_HEADER;

/// A tag has so many bytes.
pub const TAG_BYTES: usize = 16;

/// The longest message, and so the longest ciphertext, in bytes.
pub const MAX_MESSAGE: usize = 4096;

/// Where the header starts, behind the version and its own length.
pub const HEADER_START: usize = 3;

/// The bytes of a telegram that belong neither to its header nor to its ciphertext.
pub const FIXED_BYTES: usize = HEADER_START + 2 + TAG_BYTES;

/// The lengths of a telegram's header and message, each in its range.
#[derive(Clone, Copy, PartialEq, Eq, Debug)]
pub struct Sizes {
    pub header: usize,
    pub message: usize,
    ghost header_sized: { (6 ≤ header) × (header ≤ 1024) },
    ghost message_short: { message ≤ 4096 },
}

impl Sizes {
    /// Refused by `Lengths` where a length is out of its range.
    pub fn new(header: usize, message: usize) -> Result<Sizes, TelegramFault>
        ensures { MatchResult result (λ sizes. (sizes.header ≡ header) × (sizes.message ≡ message)) (λ fault. (fault ≡ Lengths) × ((header_sized header && nat_le message 4096) ≡ false)) }
    {
        if header_fits(header) && message <= MAX_MESSAGE {
            Ok(Sizes { header, message })
        } else {
            Err(TelegramFault::Lengths)
        }
    }

    /// The sizes in a telegram of `len` bytes with a header of `header`: the message is as long as what they leave.
    pub(crate) fn filling(header: usize, len: usize) -> Result<Sizes, TelegramFault>
        ensures { MatchResult result (λ sizes. (sizes.header ≡ header) × (len ≡ 21 + header + sizes.message)) (λ fault. (fault ≡ Lengths) × (6 ≤ header → roomy header len ≡ false)) }
    {
        let message = len
            .checked_sub(FIXED_BYTES)
            .and_then(|behind| behind.checked_sub(header))
            .ok_or(TelegramFault::Lengths)?;
        Sizes::new(header, message)
    }
}

/// Whether a header may have `len` bytes.
pub(crate) fn header_fits(len: usize) -> bool
    ensures { result ≡ header_sized len }
{
    (MIN_HEADER..=MAX_HEADER).contains(&len)
}

// These two are no `From`: they take a `usize` to its two bytes and back, and not every `usize` has them.

/// The number that two bytes spell, the high one first.
pub(crate) fn length_of(hi: u8, lo: u8) -> usize
    ensures { result ≡ 256 * hi + lo }
{
    usize::from(u16::from_be_bytes([hi, lo]))
}

/// The two bytes of a length, the high one first.
pub(crate) fn length_bytes(n: usize) -> [u8; 2]
    requires { n < 2 ^ 16 }
    ensures { result ≡ two n }
{
    (n as u16).to_be_bytes()
}

// The parts of a telegram, and where they lie in its buffer.
ghost use Rattle.telegram.specs.Places.{layout};
ghost use Rattle.std.specs.Prelude.{◌≡◌};

use crate::sizes::{HEADER_START, Sizes, TAG_BYTES};

/// Bytes of a buffer, from `start` up to and without `end`. Unlike a `Range`, it may be copied.
#[derive(Clone, Copy, PartialEq, Eq, Debug)]
pub struct Place {
    pub start: usize,
    pub end: usize,
}

/// Where the parts of a telegram lie.
#[derive(Clone, Copy, PartialEq, Eq, Debug)]
pub struct Places {
    pub header: Place,
    pub tag: Place,
    pub ciphertext: Place,
}

/// The parts of a telegram, in the buffer that it was read from.
#[derive(Clone, Copy, PartialEq, Eq, Debug)]
pub struct Fields<'a> {
    pub header: &'a [u8],
    pub tag: &'a [u8],
    pub ciphertext: &'a [u8],
    pub places: Places,
}

impl From<Sizes> for Places {
    ghost from_gives = { λ sizes places. places ≡ layout sizes.header sizes.message };

    fn from(sizes: Sizes) -> Places {
        let header = Place {
            start: HEADER_START,
            end: HEADER_START + sizes.header,
        };
        let tag = Place {
            start: header.end + 2,
            end: header.end + 2 + TAG_BYTES,
        };
        Places {
            header,
            tag,
            ciphertext: Place {
                start: tag.end,
                end: tag.end + sizes.message,
            },
        }
    }
}

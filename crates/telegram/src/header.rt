// A telegram's header.
ghost use Rattle.std.specs.Prelude.{◌≡◌, ◌+◌, ◌*◌, ◌^◌, ◌<◌, ◌≤◌, [], ◌∷◌, ◌++◌, length, IfOk, Ok, Err, MatchResult, OnOk};
ghost use Rattle.telegram.specs.Calls.{header_writing};
ghost use Rattle.telegram.specs.Header.{four, header_bytes, header_reading, heading};
ghost use Rattle.telegram.specs.Kind.{kind_byte};
ghost use Rattle.telegram.specs.declared.fault.TelegramFault.TheVariants.{Lengths};

use crate::fault::TelegramFault;
pub use crate::kind::Kind;
use crate::sizes::{MAX_NOTE, MIN_HEADER, header_fits};

#[derive(Clone, Copy, PartialEq, Eq, Debug)]
pub struct Header<'a> {
    pub gauge: u8,
    pub serial: u32,
    pub kind: Kind,
    pub note: &'a [u8],
}

impl Header<'_> {
    /// Reads a header. Refused by `Lengths` where it has not 6 to 1,024 bytes.
    pub fn read(bytes: &[u8]) -> Result<Header<'_>, TelegramFault>
        ensures reads { MatchResult result (λ h. header_reading bytes.now ≡ Ok (heading h)) (λ fault. header_reading bytes.now ≡ Err fault) }
        ensures rewrites { IfOk result (λ h. header_bytes (heading h) ≡ bytes.now) }
    {
        match bytes {
            &[gauge, s3, s2, s1, s0, kind, ref note @ ..] if header_fits(bytes.len()) => {
                let serial = u32::from_be_bytes([s3, s2, s1, s0]);
                let kind = Kind::from(kind);
                Ok(Header {
                    gauge,
                    serial,
                    kind,
                    note,
                })
            }
            _ => Err(TelegramFault::Lengths),
        }
    }

    /// Writes the header over `out`. Refused by `Lengths` where the note is longer than 1,018 bytes or `out` is
    /// not exactly of the header's length; then `out` is as it was.
    pub fn write(&self, out: &mut [u8]) -> Result<(), TelegramFault>
        ensures writes { MatchResult result (λ _. header_writing (heading self.now) out.old ≡ Ok out.new) (λ fault. (header_writing (heading self.now) out.old ≡ Err fault) × (out.new ≡ out.old)) }
        ensures reads { OnOk result (header_reading out.new ≡ Ok (heading self.now)) }
    {
        if out.len() != self.size()? {
            return Err(TelegramFault::Lengths);
        }
        self.put(out);
        Ok(())
    }

    /// How long the header is. Refused by `Lengths` where the note is too long.
    pub(crate) fn size(&self) -> Result<usize, TelegramFault>
        ensures { MatchResult result (λ n. (n ≡ 6 + length self.now.note.now) × (n ≤ 1024)) (λ fault. (fault ≡ Lengths) × (1018 < length self.now.note.now)) }
    {
        if self.note.len() > MAX_NOTE {
            return Err(TelegramFault::Lengths);
        }
        Ok(MIN_HEADER + self.note.len())
    }

    /// The bytes before the note.
    fn front(&self) -> [u8; 6]
        ensures bytes { result ≡ self.now.gauge ∷ (four self.now.serial ++ (kind_byte self.now.kind ∷ [])) }
        ensures serial { self.now.serial < 2 ^ 32 }
    {
        let [s3, s2, s1, s0] = self.serial.to_be_bytes();
        [self.gauge, s3, s2, s1, s0, u8::from(self.kind)]
    }

    /// Writes the header over bytes of its own length.
    pub(crate) fn put(&self, out: &mut [u8])
        requires { length out.old ≡ 6 + length self.now.note.now }
        ensures writes { out.new ≡ header_bytes (heading self.now) }
        ensures serial { self.now.serial < 2 ^ 32 }
    {
        out[0..MIN_HEADER].copy_from_slice(&self.front());
        out[MIN_HEADER..].copy_from_slice(self.note);
    }
}

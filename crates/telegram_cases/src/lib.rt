// Telegrams, run: one that is known, cut short, damaged and at the limits, and frames written and read again.
#![tactic(auto)]

#[cfg(test)]
mod tests {
    use std::alloc::{AllocError, Global};
    use std::process::Abort;
    use std::test::Fail;
    use telegram::fault::TelegramFault;
    use telegram::header::{Header, Kind};
    use telegram::parts::Place;
    use telegram::reading::fields;
    use telegram::writing::{places, write_frame};

    // Gauge 3, serial 1, a measurement with a note of ten zeros, and a ciphertext of 16 bytes.
    const GOOD: &[u8; 53] =
        b"\x01\x00\x10\x03\x00\x00\x00\x01\x00\x00\x00\x00\x00\x00\x00\x00\x00\x00\x00\x00\x10\
\x0a\x6c\x00\x00\x00\x00\x00\x00\x02\x1c\x00\x00\x00\x00\x00\x1a\
\x0a\x6c\x00\x00\x00\x00\x00\x00\x02\x1c\x00\x00\x00\x00\x00\x18";

    // The good telegram with one byte changed.
    fn damaged(at: usize, byte: u8) -> [u8; 53] {
        let mut bytes = *GOOD;
        if let Some(b) = bytes.get_mut(at) {
            *b = byte;
        }
        bytes
    }

    #[test]
    fn a_front_is_refused(rt: HostRuntime) {
        // A loop over lengths: a front is what a length leaves of the telegram.
        for n in 0..GOOD.len() {
            assert_eq!(rt; fields(&GOOD[..n]).err(), Some(TelegramFault::Lengths));
        }
        assert_eq!(rt; fields(GOOD).err(), None);
    }

    #[test]
    fn damage_is_refused(rt: HostRuntime) {
        let table = [
            (0, 0, TelegramFault::Version),
            (0, 2, TelegramFault::Version),
            (0, 255, TelegramFault::Version),
            (1, 1, TelegramFault::Lengths),
            (1, 4, TelegramFault::Lengths),
            (2, 5, TelegramFault::Lengths),
            (2, 15, TelegramFault::Lengths),
            (2, 17, TelegramFault::Lengths),
            (19, 1, TelegramFault::Lengths),
            (19, 17, TelegramFault::Lengths),
            (20, 15, TelegramFault::Lengths),
            (20, 17, TelegramFault::Lengths),
        ];
        for (at, byte, fault) in table {
            assert_eq!(rt; fields(&damaged(at, byte)).err(), Some(fault));
        }
        assert_eq!(rt; fields(&[2]).err(), Some(TelegramFault::Version));
    }

    // `n` bytes, each unlike its neighbours. One line, which `cases` has too: its tests and these share no crate.
    fn ramp(heap: Global, n: u16) -> Result<Vec<u8>, AllocError> {
        (0..n).map(|i| (i % 251) as u8).collect(heap)
    }

    // Writes a frame with a note of `note` bytes into `len` bytes, and reads it again.
    fn written_and_read(rt: &impl Abort, heap: Global, note: u16, len: u16) -> Result<bool, Fail> {
        let note = ramp(heap, note)?;
        let sent = Header {
            gauge: 7,
            serial: 0xfedc_ba98,
            kind: Kind::from(200),
            note: note.as_slice(),
        };
        let mut out = ramp(heap, len)?;
        let Ok(places) = write_frame(out.as_mut_slice(), &sent) else {
            assert_eq!(rt; out.as_slice(), ramp(heap, len)?.as_slice());
            return Ok(false);
        };
        let read = fields(out.as_slice())?;
        assert_eq!(rt; read.places, places);
        assert_eq!(rt; Header::read(read.header)?, sent);
        Ok(true)
    }

    #[test]
    fn the_limits_are_kept(rt: HostRuntime) -> Result<(), Fail> {
        let table = [
            (0, 26, false),
            (0, 27, true),
            (0, 4123, true),
            (0, 4124, false),
            (1018, 1044, false),
            (1018, 1045, true),
            (1018, 5141, true),
            (1018, 5142, false),
            (1019, 1046, false),
        ];
        for (note, len, taken) in table {
            assert_eq!(rt; written_and_read(&rt, rt.alloc(), note, len)?, taken);
        }
        Ok(())
    }

    #[test]
    fn the_known_frame_is_written(rt: HostRuntime) -> Result<(), Fail> {
        let header = Header {
            gauge: 3,
            serial: 1,
            kind: Kind::Measurement,
            note: &[0; 10],
        };
        assert_eq!(rt; places(&header, 16)?.ciphertext.end, 53);
        let mut out = *GOOD;
        out[0..21].fill(0xff);
        let places = write_frame(&mut out, &header)?;
        assert_eq!(rt; places.ciphertext, Place { start: 37, end: 53 });
        assert!(rt; out == *GOOD);
        Ok(())
    }
}

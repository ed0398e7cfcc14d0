// Sealing a message into a telegram.
ghost use Rattle.std.specs.Prelude.{◌≡◌, ◌+◌, false, [], length, MatchResult};
ghost use Rattle.mode.specs.Keys.{keys};
ghost use Rattle.station.specs.Calls.{Sealed};
ghost use Rattle.station.specs.State.{running, view};
ghost use Rattle.station.specs.Steps.{Sealing, answered, heading_of, not_a_key, out_of_size, telegram_under};
ghost use Rattle.telegram.specs.Kind.{kind_byte};

use crate::fault::StationFault;
use crate::outgoing::Outgoing;
use crate::parts::{Ledger, Station};
use cipher::Cipher;
use mode::hbs::Hbs;
use multiplier::Multiplier;
use seal::fault::SealFault;
use telegram::fault::TelegramFault;
use telegram::header::Header;
use telegram::kind::Kind;
use telegram::parts::Place;
use telegram::sizes::{FIXED_BYTES, MAX_MESSAGE, MAX_NOTE, MIN_HEADER, Sizes};
use telegram::writing::write_frame;

impl Outgoing<'_> {
    fn sizes(&self) -> Sizes
        ensures header { result.header ≡ 6 + length self.now.note.now }
        ensures message { result.message ≡ length self.now.message.now }
    {
        Sizes {
            header: MIN_HEADER + self.note.len(),
            message: self.message.len(),
        }
    }

    /// Writes the telegram under a header, which fills `out`. The message is enciphered where it lies.
    fn write<C: Cipher, M: Multiplier>(
        &self,
        hbs: &Hbs<C, M>,
        gauge: u8,
        serial: u32,
        out: &mut [u8],
    ) -> Result<(), TelegramFault>
        requires { length out.old ≡ 27 + length self.now.note.now + length self.now.message.now }
        ensures { MatchResult result (λ _. out.new ≡ telegram_under (keys C.Cipher M.Multiplier hbs.now) (heading_of gauge serial self.now) self.now.message.now) (λ _. ⊥) }
    {
        let header = Header {
            gauge,
            serial,
            kind: self.kind,
            note: self.note,
        };
        let places = write_frame(out, &header)?;
        let (front, text) = out.split_at_mut(places.tag.end);
        text.copy_from_slice(self.message);
        let Place { start, end } = places.header;
        let sealed = hbs.seal(Some(&front[start..end]), text);
        let Place { start, end } = places.tag;
        front[start..end].copy_from_slice(&sealed.to_bytes());
        Ok(())
    }
}

impl Ledger {
    /// Seals a message into the front of `out`: the tests of the output, of serials and of wear, and what follows.
    fn seal<C: Cipher, M: Multiplier>(
        &mut self,
        hbs: &Hbs<C, M>,
        outgoing: &Outgoing<'_>,
        out: &mut [u8],
    ) -> Result<usize, StationFault>
        ensures { Sealing (running C.Cipher M.Multiplier hbs.now self.old) (kind_byte outgoing.now.kind) false outgoing.now.note.now outgoing.now.message.now out.old (answered Sealed result) out.new (running C.Cipher M.Multiplier hbs.now self.new) }
    {
        let sizes = outgoing.sizes();
        let len = FIXED_BYTES + sizes.header + sizes.message;
        if out.len() < len {
            return Err(StationFault::OutputShort);
        }
        let serial = self.given.checked_add(1).ok_or(StationFault::SerialsGiven)?;
        let wear = self.wear.and_one(sizes)?;
        outgoing.write(hbs, self.own, serial, &mut out[0..len])?;
        self.given = serial;
        self.wear = wear;
        Ok(len)
    }
}

impl<C: Cipher, M: Multiplier> Station<C, M> {
    /// Seals a measurement into the front of `out`, with the next own serial, and answers the telegram's length. What
    /// stands behind the telegram stays.
    ///
    /// Refused by `NotStarted`; by `Size` where the note is longer than 1,018 bytes or the message than 4,096; by
    /// `OutputShort`, `SerialsGiven` and `Worn`. A refusal alters nothing.
    pub fn seal(
        &mut self,
        note: &[u8],
        message: &[u8],
        out: &mut [u8],
    ) -> Result<usize, StationFault>
        ensures { Sealing (view C.Cipher M.Multiplier self.old) 0 (out_of_size note.now message.now) note.now message.now out.old (answered Sealed result) out.new (view C.Cipher M.Multiplier self.new) }
    {
        let ledger = self.ledger.as_mut().ok_or(StationFault::NotStarted)?;
        if note.len() > MAX_NOTE || message.len() > MAX_MESSAGE {
            return Err(StationFault::Seal(SealFault::Size));
        }
        let outgoing = Outgoing {
            kind: Kind::Measurement,
            note,
            message,
        };
        ledger.seal(&self.hbs, &outgoing, out)
    }

    /// Seals a new key into the front of `out`, with an empty note, else as `seal` does. Refused by `Size` where the key is
    /// not as long as a key of the cipher is.
    pub fn seal_key(&mut self, key: &[u8], out: &mut [u8]) -> Result<usize, StationFault>
        ensures { Sealing (view C.Cipher M.Multiplier self.old) 1 (not_a_key (view C.Cipher M.Multiplier self.old) key.now) [] key.now out.old (answered Sealed result) out.new (view C.Cipher M.Multiplier self.new) }
    {
        let ledger = self.ledger.as_mut().ok_or(StationFault::NotStarted)?;
        if key.len() != self.hbs.cipher.key_len() {
            return Err(StationFault::Seal(SealFault::Size));
        }
        let outgoing = Outgoing {
            kind: Kind::Key,
            note: &[],
            message: key,
        };
        ledger.seal(&self.hbs, &outgoing, out)
    }
}

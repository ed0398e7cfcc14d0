// The tests of an opening before the last, which both openings run.
ghost use Rattle.std.specs.Prelude.{◌≡◌, ℕ, List, Some, None, MatchResult};
ghost use Rattle.station.specs.Admission.{Admitted};
ghost use Rattle.station.specs.Answers.{refusal};
ghost use Rattle.station.specs.Incoming.{Told};
ghost use Rattle.station.specs.State.{running};
ghost use Rattle.station.specs.Tests.{admission, past, unwanted};

use crate::admission::Admission;
use crate::fault::StationFault;
use crate::incoming::Incoming;
use crate::parts::Ledger;
use cipher::Cipher;
use mode::hbs::Hbs;
use multiplier::Multiplier;
use telegram::kind::Kind;

impl Incoming {
    /// Whether the telegram is not of the kind that is wanted, or its message not as long as a wanted key is.
    fn is_unwanted<C: Cipher>(&self, wanted: Kind, cipher: &C) -> bool
        ensures { (b : List ℕ) → Told b self.now → result ≡ unwanted (C.scheme cipher.now).key_len wanted b }
    {
        self.kind != wanted || (wanted == Kind::Key && self.sizes.message != cipher.key_len())
    }
}

impl Ledger {
    /// What is told of a telegram of the kind that is wanted, where it passes all tests but the last.
    // the kind decides two of the tests: each is one comparison, which a closure for each call would not shorten
    pub(crate) fn examine<C: Cipher, M: Multiplier>(
        &self,
        hbs: &Hbs<C, M>,
        wanted: Kind,
        buffer: &[u8],
    ) -> Result<Admission, StationFault>
        ensures { MatchResult result (Admitted (running C.Cipher M.Multiplier hbs.now self.now) wanted buffer.now) (λ fault. past (admission (running C.Cipher M.Multiplier hbs.now self.now) wanted buffer.now) Some None ≡ Some (refusal fault)) }
    {
        let incoming = Incoming::read(buffer)?;
        if incoming.is_unwanted(wanted, &hbs.cipher) {
            return Err(StationFault::Kind);
        }
        let sender = self.sender(incoming.gauge)?;
        if self.is_barred(wanted) {
            return Err(StationFault::ChangePending);
        }
        if self.is_stale(sender, incoming.serial) {
            return Err(StationFault::Stale);
        }
        let wear = self.wear.and_one(incoming.sizes)?;
        Ok(Admission {
            incoming,
            sender,
            wear,
        })
    }
}

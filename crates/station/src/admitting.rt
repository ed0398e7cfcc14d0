// Opening a telegram where it stands, which both openings do.
ghost use Rattle.std.specs.Prelude.{◌≡◌};
ghost use Rattle.seal.specs.Watching.{SameBuffer};
ghost use Rattle.station.specs.Admission.{Admits};
ghost use Rattle.station.specs.State.{running};

use crate::admission::Admission;
use crate::fault::StationFault;
use crate::held::Held;
use crate::incoming::Incoming;
use crate::parts::Ledger;
use cipher::Cipher;
use mode::hbs::Hbs;
use multiplier::Multiplier;
use seal::watch::Watch;
use telegram::kind::Kind;
use telegram::parts::Place;
use telegram::sizes::MAX_HEADER;

impl Ledger {
    /// Opens a telegram of the kind that is wanted, and hears its serial. It stays under the watch.
    pub(crate) fn admit<C: Cipher, M: Multiplier>(
        &mut self,
        hbs: &Hbs<C, M>,
        wanted: Kind,
        watch: &mut Watch<'_>,
    ) -> Result<Incoming, StationFault>
        ensures admits { Admits (running C.Cipher M.Multiplier hbs.now self.old) wanted watch.old.bytes.now result watch.new.bytes.now (running C.Cipher M.Multiplier hbs.now self.new) }
        ensures holds { watch.new.released ≡ watch.old.released }
        ensures same { SameBuffer watch.old watch.new }
    {
        let Admission {
            incoming,
            sender,
            wear,
        } = self.examine(hbs, wanted, watch.contents())?;
        self.wear = wear;
        // a copy: the watch lends all the buffer to be written, and one that splits it would serve this call alone
        let Place { start, end } = incoming.places.header;
        let header: Held<u8, MAX_HEADER> = Held::copied(&watch.contents()[start..end], 0);
        let Place { start, end } = incoming.places.ciphertext;
        watch.open_part(hbs, header.as_slice(), incoming.tag, start, end)?;
        self.hear(sender, incoming.serial);
        Ok(incoming)
    }
}

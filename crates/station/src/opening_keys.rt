// Opening a telegram that brings a key.
ghost use Rattle.station.specs.Calls.{Ordered};
ghost use Rattle.station.specs.Orders.{order_of};
ghost use Rattle.std.specs.Prelude.{◌≡◌, ◌≤◌, length};
ghost use Rattle.station.specs.State.{view, wait, waiting};
ghost use Rattle.station.specs.Steps.{KeyOpening, answered};

use crate::fault::StationFault;
use crate::held::Held;
use crate::order::ChangeOrder;
use crate::parts::{Change, Station};
use cipher::Cipher;
use multiplier::Multiplier;
use seal::watch::Watch;
use telegram::kind::Kind;
use telegram::parts::Place;

impl Change {
    /// The key that a telegram brought.
    fn new(sender: u8, serial: u32, key: &[u8]) -> Change
        requires { length key.now ≤ 255 }
        ensures { waiting result ≡ wait sender serial key.now }
    {
        Change {
            sender,
            serial,
            key: Held::copied(key, 0),
        }
    }
}

impl<C: Cipher, M: Multiplier> Station<C, M> {
    /// Opens a telegram that brings a key. The key waits until the order that is handed out is spent.
    ///
    /// Refused as `open` is, by `Kind` also where the message is not as long as a key is, and by `ChangePending` after
    /// `Gauge`. Every byte of the buffer is zero afterwards, accepted or refused.
    pub fn open_key(&mut self, buffer: &mut [u8]) -> Result<ChangeOrder, StationFault>
        ensures { KeyOpening (view C.Cipher M.Multiplier self.old) buffer.old (answered (λ o. Ordered (order_of o)) result) buffer.new (view C.Cipher M.Multiplier self.new) }
    {
        let mut watch = Watch {
            bytes: buffer,
            released: false,
        };
        let ledger = self.ledger.as_mut().ok_or(StationFault::NotStarted)?;
        let incoming = ledger.admit(&self.hbs, Kind::Key, &mut watch)?;
        let Place { start, end } = incoming.places.ciphertext;
        let key = &watch.contents()[start..end];
        ledger.pending = Some(Change::new(incoming.gauge, incoming.serial, key));
        Ok(ChangeOrder {
            own: ledger.own,
            sender: incoming.gauge,
            serial: incoming.serial,
        })
    }
}

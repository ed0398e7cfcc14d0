// Opening a telegram.
ghost use Rattle.station.specs.Calls.{Opened as OpenedAt};
ghost use Rattle.station.specs.State.{view};
ghost use Rattle.station.specs.Steps.{Opening, answered};
ghost use Rattle.std.specs.Prelude.{◌≡◌};

use crate::fault::StationFault;
use crate::parts::Station;
use cipher::Cipher;
use multiplier::Multiplier;
use seal::watch::Watch;
use telegram::kind::Kind;
use telegram::parts::Place;

/// A measurement that was opened: who sent it, and where it and its header stand in the buffer.
#[derive(Clone, Copy)]
pub struct Opened {
    pub gauge: u8,
    pub serial: u32,
    pub header: Place,
    pub message: Place,
}

impl<C: Cipher, M: Multiplier> Station<C, M> {
    /// Opens a telegram that brings a measurement, where it stands: its ciphertext becomes the message.
    ///
    /// Refused by `NotStarted`, `Version`, `Lengths`, `Kind`, `Gauge`, `Stale`, `Worn` and `Mismatch`, tested in this order.
    /// Whatever the refusal, every byte of the buffer is then zero. The station is altered only by `Mismatch`, which is
    /// counted.
    pub fn open(&mut self, buffer: &mut [u8]) -> Result<Opened, StationFault>
        ensures { Opening (view C.Cipher M.Multiplier self.old) buffer.old (answered (λ o. OpenedAt o.gauge o.serial o.header o.message) result) buffer.new (view C.Cipher M.Multiplier self.new) }
    {
        let mut watch = Watch {
            bytes: buffer,
            released: false,
        };
        let ledger = self.ledger.as_mut().ok_or(StationFault::NotStarted)?;
        let incoming = ledger.admit(&self.hbs, Kind::Measurement, &mut watch)?;
        watch.release();
        Ok(Opened {
            gauge: incoming.gauge,
            serial: incoming.serial,
            header: incoming.places.header,
            message: incoming.places.ciphertext,
        })
    }
}

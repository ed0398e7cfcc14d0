// A new station, and its start.
ghost use Rattle.station.specs.Calls.{Done};
ghost use Rattle.station.specs.State.{unstarted, view};
ghost use Rattle.station.specs.Steps.{Starting, answered};
ghost use Rattle.std.specs.Prelude.{◌≡◌};

use crate::fault::StationFault;
use crate::parts::{Gauge, Ledger, Station};
use crate::wear::Wear;
use cipher::Cipher;
use mode::hbs::Hbs;
use multiplier::Multiplier;

/// The own gauge is at most this.
pub const MAX_GAUGE: u8 = 15;

/// The least allowance, which is the wear of one call with one block of header and one of message.
pub const MIN_ALLOWANCE: u64 = 4;

/// The largest allowance.
pub const MAX_ALLOWANCE: u64 = 1 << 48;

impl<C: Cipher, M: Multiplier> Station<C, M> {
    /// A station that is not started.
    pub fn new(cipher: C, multiplier: M) -> Station<C, M>
        ensures { view C.Cipher M.Multiplier result ≡ unstarted (C.Cipher.scheme cipher) (C.Cipher.loaded cipher) (M.Multiplier.element multiplier) }
    {
        Station {
            hbs: Hbs::new(cipher, multiplier),
            ledger: None,
        }
    }

    /// Starts the station under a key.
    ///
    /// Refused by `AlreadyStarted`, and by `StartRange` where the own gauge is above 15, the allowance not 4 to 2^48, or
    /// the key not as long as a key of the cipher is; a refused start alters nothing.
    pub fn start(&mut self, own: u8, allowance: u64, key: &[u8]) -> Result<(), StationFault>
        ensures { Starting (view C.Cipher M.Multiplier self.old) own allowance key.now (answered (λ _. Done) result) (view C.Cipher M.Multiplier self.new) }
    {
        if self.ledger.is_some() {
            return Err(StationFault::AlreadyStarted);
        }
        if own > MAX_GAUGE || !(MIN_ALLOWANCE..=MAX_ALLOWANCE).contains(&allowance) {
            return Err(StationFault::StartRange);
        }
        self.hbs
            .load(key)
            .map_err(|_wrong_key_len| StationFault::StartRange)?;
        self.ledger = Some(Ledger {
            own,
            given: 0,
            gauges: [Gauge { last: 0 }; 16],
            wear: Wear::none(allowance),
            pending: None,
        });
        Ok(())
    }
}

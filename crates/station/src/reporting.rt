// Which gauges were heard.
ghost use Rattle.std.specs.Prelude.{◌≡◌, map};
ghost use Rattle.station.specs.Calls.{Reported};
ghost use Rattle.station.specs.Held.{held};
ghost use Rattle.station.specs.Reports.{Reporting, entry, heard_of};
ghost use Rattle.station.specs.State.{view};
ghost use Rattle.station.specs.Steps.{answered};

use crate::fault::StationFault;
use crate::held::Held;
use crate::parts::{Ledger, Station};
use cipher::Cipher;
use multiplier::Multiplier;

/// How many gauges were heard under the key in force, and the use of that key: the number of counted calls, and the
/// largest numbers of header blocks and of message blocks among them.
#[derive(Clone, Copy)]
pub struct Report {
    pub count: usize,
    // the use of the key as three numbers: a caller reads each by its name, and Wear's stand under its invariant
    pub calls: u64,
    pub header_blocks: u64,
    pub message_blocks: u64,
}

impl Ledger {
    /// An entry of five bytes for each gauge that was heard.
    fn entries(&self) -> Held<[u8; 5], 16>
        ensures { held result ≡ map (entry self.now.gauges) (heard_of self.now.gauges 16) }
    {
        let mut entries = Held::none([0; 5]);
        for (number, gauge) in self.gauges.iter().enumerate() {
            if gauge.last != 0 {
                let [a, b, c, d] = gauge.last.to_be_bytes();
                entries.push([number as u8, a, b, c, d]);
            }
        }
        entries
    }
}

impl<C: Cipher, M: Multiplier> Station<C, M> {
    /// Writes an entry of five bytes, the gauge and the last serial accepted from it, for each gauge that was heard under
    /// the key in force. In which order they stand is left open. What stands behind them stays.
    ///
    /// Refused by `NotStarted` and `OutputShort`, which alter nothing.
    pub fn report(&self, out: &mut [u8]) -> Result<Report, StationFault>
        ensures { Reporting (view C.Cipher M.Multiplier self.now) out.old (answered (λ o. Reported o.count o.calls o.header_blocks o.message_blocks) result) out.new }
    {
        let ledger = self.ledger.as_ref().ok_or(StationFault::NotStarted)?;
        let entries = ledger.entries();
        let listed = entries.as_slice();
        let bytes = listed.as_flattened();
        if out.len() < bytes.len() {
            return Err(StationFault::OutputShort);
        }
        out[0..bytes.len()].copy_from_slice(bytes);
        Ok(Report {
            count: listed.len(),
            calls: ledger.wear.calls,
            header_blocks: ledger.wear.header_blocks,
            message_blocks: ledger.wear.message_blocks,
        })
    }
}

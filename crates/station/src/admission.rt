// The tests that both openings run on what is told of a telegram.
ghost use Rattle.std.specs.Prelude.{◌≡◌, true, false, ◌&&◌, is_some, nat_le, MatchResult};
ghost use Rattle.station.specs.Admission.{heard};
ghost use Rattle.station.specs.State.{last_of, waiting};
ghost use Rattle.station.specs.Tests.{is_key, unknown};
ghost use Rattle.station.specs.declared.fault.StationFault.TheVariants.{Gauge as OtherGauge};
ghost use Rattle.std.specs.Option.{option_map};

use crate::fault::StationFault;
use crate::gauge_number::GaugeNumber;
use crate::incoming::Incoming;
use crate::parts::{Gauge, Ledger};
use crate::starting::MAX_GAUGE;
use crate::wear::Wear;
use telegram::kind::Kind;

/// A telegram that may be opened, who sent it, and the wear with it counted.
#[derive(Clone, Copy)]
pub(crate) struct Admission {
    pub(crate) incoming: Incoming,
    pub(crate) sender: GaugeNumber,
    pub(crate) wear: Wear,
}

impl Ledger {
    /// The number of the gauge that sent a telegram; refused by `Gauge` where it is none of the sixteen, or the own one.
    pub(crate) fn sender(&self, gauge: u8) -> Result<GaugeNumber, StationFault>
        ensures { MatchResult result (λ sender. (unknown self.now.own gauge ≡ false) × (sender.number ≡ gauge)) (λ fault. (unknown self.now.own gauge ≡ true) × (fault ≡ OtherGauge)) }
    {
        if gauge > MAX_GAUGE || gauge == self.own {
            return Err(StationFault::Gauge);
        }
        Ok(GaugeNumber { number: gauge })
    }

    /// Whether a key is wanted, while one waits already.
    pub(crate) fn is_barred(&self, wanted: Kind) -> bool
        ensures { result ≡ (is_key wanted && is_some (option_map waiting self.now.pending)) }
    {
        wanted == Kind::Key && self.pending.is_some()
    }

    /// Whether the serial is not above the gauge's last.
    pub(crate) fn is_stale(&self, gauge: GaugeNumber, serial: u32) -> bool
        ensures { result ≡ nat_le serial (last_of gauge.number self.now.gauges) }
    {
        serial <= self.gauges[usize::from(gauge.number)].last
    }

    /// Hears a serial from a gauge.
    // two parameters: the gauge is a `GaugeNumber` here and a plain byte in a change and an order
    pub(crate) fn hear(&mut self, gauge: GaugeNumber, serial: u32)
        ensures { self.new ≡ heard gauge.number serial self.old }
    {
        self.gauges[usize::from(gauge.number)] = Gauge { last: serial };
    }
}

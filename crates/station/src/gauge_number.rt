// A gauge's number.
ghost use Rattle.std.specs.Prelude.{◌<◌};

/// The number of one of the sixteen gauges.
#[derive(Clone, Copy)]
pub(crate) struct GaugeNumber {
    pub(crate) number: u8,
    ghost known: { number < 16 },
}

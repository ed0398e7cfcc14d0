// What a station holds.
use crate::held::Held;
use crate::wear::Wear;
use mode::hbs::Hbs;

/// What is known of a gauge under the key in force.
#[derive(Clone, Copy)]
pub struct Gauge {
    // the last serial accepted from it; 0 where it has not been heard, and no Option: any serial but 0 is above it, so one
    // comparison serves both
    pub(crate) last: u32,
}

/// A key that was opened, and waits to come into force.
#[derive(Clone, Copy)]
pub struct Change {
    pub(crate) sender: u8,
    pub(crate) serial: u32,
    pub(crate) key: Held<u8, 255>,
}

/// The record of a station that is started.
// its methods take the Hbs beside it: both are lent from the station at once, and methods of the station would ask for the
// ledger again
#[derive(Clone, Copy)]
pub struct Ledger {
    pub(crate) own: u8,
    // the last own serial given
    pub(crate) given: u32,
    pub(crate) gauges: [Gauge; 16],
    pub(crate) wear: Wear,
    pub(crate) pending: Option<Change>,
}

/// Seals and opens telegrams under a key.
#[derive(Drop)]
pub struct Station<C, M> {
    pub(crate) hbs: Hbs<C, M>,
    // none before the start
    pub(crate) ledger: Option<Ledger>,
}

// Declining a change of the key.
ghost use Rattle.station.specs.Calls.{Done};
ghost use Rattle.station.specs.Orders.{order_of, returned};
ghost use Rattle.std.specs.Prelude.{◌≡◌, IfErr};
ghost use Rattle.std.specs.Option.{option_map};
ghost use Rattle.station.specs.State.{view, waiting};
ghost use Rattle.station.specs.Steps.{Declining};
ghost use Rattle.station.specs.Tests.{matches};

use crate::fault::StationFault;
use crate::order::ChangeOrder;
use crate::parts::{Ledger, Station};
use cipher::Cipher;
use multiplier::Multiplier;

/// An order that was refused, and why: it is handed back.
pub struct OrderBack {
    pub order: ChangeOrder,
    pub fault: StationFault,
}

impl Ledger {
    /// Whether the order is for the change that waits.
    fn matches(&self, order: &ChangeOrder) -> bool
        ensures { result ≡ matches self.now.own (order_of order.now) (option_map waiting self.now.pending) }
    {
        self.pending.as_ref().is_some_and(|change| {
            order.own == self.own && order.sender == change.sender && order.serial == change.serial
        })
    }
}

impl<C: Cipher, M: Multiplier> Station<C, M> {
    /// Spends the order, and drops the key that waits.
    ///
    /// Refused by `NotStarted`, and by `OtherOrder` where the order does not match what waits; the order is then handed
    /// back, and nothing is altered.
    pub fn decline(&mut self, order: ChangeOrder) -> Result<(), OrderBack>
        ensures declines { Declining (view C.Cipher M.Multiplier self.old) (order_of order) (returned (λ _. Done) result) (view C.Cipher M.Multiplier self.new) }
        ensures back { IfErr result (λ back. back.order ≡ order) }
    {
        let Some(ledger) = &mut self.ledger else {
            return Err(OrderBack {
                order,
                fault: StationFault::NotStarted,
            });
        };
        if !ledger.matches(&order) {
            return Err(OrderBack {
                order,
                fault: StationFault::OtherOrder,
            });
        }
        let ChangeOrder {
            own: _,
            sender: _,
            serial: _,
        } = order;
        ledger.pending = None;
        Ok(())
    }
}

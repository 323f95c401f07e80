// Plain orders.
ghost use Rattle.workers.specs.Orders.{plain_order};

use super::order_kind::OrderKind;
use terms::WorkerId;

// Its number, and what it needs from worker 0.
#[derive(Clone, Copy, Debug, PartialEq, Eq)]
pub struct PlainOrder {
    pub number: u16,
    pub need: u16,
}

impl OrderKind for PlainOrder {
    ghost shown = { plain_order };

    fn number(&self) -> u16 {
        self.number
    }

    fn need(&self, v: WorkerId) -> u16 {
        if v.index() == 0 { self.need } else { 0 }
    }
}

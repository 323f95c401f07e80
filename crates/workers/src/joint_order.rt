// Joint orders.
ghost use Rattle.workers.specs.Orders.{joint_order};

use super::order_kind::OrderKind;
use terms::WorkerId;

// Its number, and what it needs from each of the workers 0 to 15. Sixteen is written as a number here and wherever there is
// one entry for each worker: definitions and clauses say it too, and would have to look a name up.
#[derive(Clone, Copy, Debug, PartialEq, Eq)]
pub struct JointOrder {
    pub number: u16,
    pub needs: [u16; 16],
}

impl OrderKind for JointOrder {
    ghost shown = { joint_order };

    fn number(&self) -> u16 {
        self.number
    }

    fn need(&self, v: WorkerId) -> u16 {
        self.needs[v.index()]
    }
}

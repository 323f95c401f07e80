// The numbers of workers.
ghost use Rattle.std.specs.Prelude.{◌≡◌, ◌<◌};
ghost use Rattle.terms.specs.Workers.{worker_numbered};

use std::marker::Model;

// A worker: 0, which takes joint orders, or the number of a partition, 1 to 15.
#[derive(Clone, Copy, Debug, PartialEq, Eq)]
pub struct WorkerId {
    number: u8,
}

impl Model for WorkerId {
    ghost use Rattle.std.specs.Prelude.{ℕ, ◌<◌};

    ghost Value = { ℕ };

    ghost view = { λ w. w.number };

    ghost invariant = { λ w. w.number < 16 };

    ghost inverse = { λ n. record { number = n } };
}

impl WorkerId {
    // The worker of this number, if there is one. An Option and no `TryFrom`: who refuses the number has a cause of its own.
    pub fn new(number: u8) -> Option<WorkerId>
        ensures { result ≡ worker_numbered number }
    {
        if number < 16 {
            Some(WorkerId { number })
        } else {
            None
        }
    }

    // The worker of joint orders.
    pub fn joint() -> WorkerId
        ensures { result ≡ 0 }
    {
        WorkerId { number: 0 }
    }

    // Where the worker stands in a table of all sixteen.
    pub fn index(self) -> usize
        ensures value { result ≡ self }
        ensures low { result < 16 }
    {
        usize::from(self.number)
    }
}

// What a worker is doing.
ghost use Rattle.std.specs.Prelude.{◌≡◌};
ghost use Rattle.model.specs.State.{is_on};

#[derive(Clone, Copy, Debug, Default, PartialEq, Eq)]
pub enum Status {
    // On no order.
    #[default]
    Idle,
    // Open on the order of this number, with a ticket out for it.
    Held(u16),
    // Open on the order of this number, with no ticket out.
    Parked(u16),
}

impl Status {
    // Whether the worker is held or parked.
    pub fn is_open(self) -> bool
        ensures { result ≡ is_on self }
    {
        self != Status::Idle
    }
}

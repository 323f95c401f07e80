// Where a ring's entries stand in its row: they begin at the first place and go round the row's end.
ghost use Rattle.std.specs.Prelude.{◌≡◌, ◌<◌, ◌≤◌};

// How many entries a row has.
pub const CAPACITY: usize = 16;

#[derive(Clone, Copy, Debug, PartialEq, Eq)]
pub struct Places {
    pub(crate) first: usize,
    pub(crate) len: usize,
    ghost start: { first < 16 },
    ghost few: { len ≤ 16 },
}

impl Places {
    // The places of an empty ring.
    pub fn new() -> Places
        ensures first { result.first ≡ 0 }
        ensures len { result.len ≡ 0 }
    {
        Places { first: 0, len: 0 }
    }
}

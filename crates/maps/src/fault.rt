// Why a map is refused. A refusal leaves the map as it was.
ghost use Rattle.std.specs.Prelude.{◌≡◌, [], ◌∷◌};
ghost use Rattle.maps.specs.Faults.{map_refusal};

#[derive(Clone, Copy, Debug, PartialEq, Eq)]
pub enum MapFault {
    // Cause 8: there are 1 to 15 partitions, and not this many.
    PartitionCount(u8),
    // Cause 9: a table has 1,024 entries, and not this many.
    TableLength(usize),
    // Cause 10: the first entry that is not 1 to n has this index.
    Entry(usize),
}

// Methods of each enum of refusals and no trait: some return one value and some two, and nothing is generic over them.
impl MapFault {
    // The number of the cause.
    pub fn cause(self) -> u8
        ensures { result ≡ (map_refusal self).cause }
    {
        match self {
            MapFault::PartitionCount(_) => 8,
            MapFault::TableLength(_) => 9,
            MapFault::Entry(_) => 10,
        }
    }

    // The value that comes back with the cause.
    pub fn returned(self) -> usize
        ensures { result ∷ [] ≡ (map_refusal self).returned }
    {
        match self {
            MapFault::PartitionCount(n) => usize::from(n),
            MapFault::TableLength(length) => length,
            MapFault::Entry(index) => index,
        }
    }
}

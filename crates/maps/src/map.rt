// What every cell map shows of itself.
ghost use Rattle.std.specs.Prelude.{◌≡◌};
ghost use Rattle.terms.specs.Maps.{MapMeaning, LawfulMap};

pub trait CellMap {
    // The map's meaning, which code above the map is proved against.
    ghost meaning: { Self → MapMeaning };

    // How many partitions there are.
    fn partitions(&self) -> u8
        ensures { result ≡ (meaning self.now).partitions };

    // The partition of a cell, or 0 where the cell is above 1,023: a map's meaning writes no partition as 0, so this is no Option.
    fn partition_of(&self, cell: u16) -> u8
        ensures { result ≡ (meaning self.now).partition cell };

    // Every map proves that it has 1 to 15 partitions and puts each cell, and no number above, into one of them.
    ghost lawful: { (m : Self) → LawfulMap (meaning m) };
}

// The residue map: cell 0 lies in partition 1, cell 1 in partition 2, and so on round the n partitions.
ghost use Rattle.std.specs.Prelude.{◌≡◌};
ghost use Rattle.terms.specs.Refusals.{ok_as};
ghost use Rattle.maps.specs.Layouts.{residues, make_answer};
ghost use Rattle.maps.specs.LayoutLaws.{residues_lawful};

use super::fault::MapFault;
use super::map::CellMap;
use super::partitions::Partitions;
use terms::LAST_CELL;

#[derive(Clone, Copy, Debug, PartialEq, Eq)]
pub struct ResidueMap {
    n: Partitions,
}

impl ResidueMap {
    // The residue map over n partitions.
    pub fn new(n: u8) -> Result<ResidueMap, MapFault>
        ensures { ok_as (λ m. m.n.count) result ≡ make_answer n }
    {
        let n = Partitions::try_from(n)?;
        Ok(ResidueMap { n })
    }
}

impl CellMap for ResidueMap {
    ghost meaning = { λ m. residues m.n.count };

    ghost lawful = { λ m. residues_lawful m.n.count m.n.some m.n.few };

    fn partitions(&self) -> u8 {
        self.n.count()
    }

    fn partition_of(&self, cell: u16) -> u8 {
        if cell > LAST_CELL {
            return 0;
        }
        // `as`, since a remainder by n is proved to fit.
        1 + (cell % u16::from(self.n.count())) as u8
    }
}

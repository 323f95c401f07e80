// How many partitions the cells are spread over.
ghost use Rattle.std.specs.Prelude.{◌≡◌, ◌≤◌};
ghost use Rattle.terms.specs.Numbers.{within};
ghost use Rattle.terms.specs.Refusals.{ok_as};
ghost use Rattle.maps.specs.Layouts.{make_answer};

use super::fault::MapFault;
use terms::MOST_PARTITIONS;

// A count from 1 to 15. Both maps are made with one, so they test no count after that.
#[derive(Clone, Copy, Debug, PartialEq, Eq)]
pub struct Partitions {
    count: u8,
    ghost some: { 1 ≤ count },
    ghost few: { count ≤ 15 },
}

impl Partitions {
    // One partition for every cell.
    pub const ONE: Partitions = Partitions { count: 1 };

    pub fn count(self) -> u8
        ensures { result ≡ self.count }
    {
        self.count
    }

    // Partitions are numbered from 1, and 0 is none.
    pub fn contains(self, partition: u8) -> bool
        ensures { result ≡ within 1 self.count partition }
    {
        (1..=self.count).contains(&partition)
    }
}

impl TryFrom<u8> for Partitions {
    type Error = MapFault;

    ghost try_from_gives = { λ n made. ok_as (λ p. p.count) made ≡ make_answer n };

    fn try_from(n: u8) -> Result<Partitions, MapFault> {
        if !(1..=MOST_PARTITIONS).contains(&n) {
            return Err(MapFault::PartitionCount(n));
        }
        Ok(Partitions { count: n })
    }
}

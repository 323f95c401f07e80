// The listed map: a table has the partition of each cell.
ghost use Rattle.std.specs.Prelude.{◌≡◌, length, replicate, is_ok, not, position, if◌then◌else◌};
ghost use Rattle.terms.specs.Numbers.{within};
ghost use Rattle.maps.specs.Layouts.{listed, good_entries_of, load_answer};
ghost use Rattle.maps.specs.LayoutLaws.{listed_lawful};

use super::fault::MapFault;
use super::map::CellMap;
use super::partitions::Partitions;
use terms::CELLS;

// At any moment every entry is a partition from 1 to n, so a lookup tests none.
#[derive(Debug, PartialEq, Eq, Drop)]
pub struct ListedMap {
    n: Partitions,
    table: [u8; CELLS],
    ghost good: { good_entries_of n.count table ≡ 1024 },
}

impl ListedMap {
    // Every cell in partition 1 of 1.
    pub fn new() -> ListedMap
        ensures n { result.n.count ≡ 1 }
        ensures table { result.table ≡ replicate 1024 1 }
    {
        ListedMap {
            n: Partitions::ONE,
            table: [1; CELLS],
        }
    }

    // Takes n and a table in place of what it holds, or refuses and stays as it was.
    #[tactic(auto, using(crate::proofs::Entries::first_bad, crate::proofs::Entries::all_good))]
    pub fn load(&mut self, n: u8, table: &[u8]) -> Result<(), MapFault>
        ensures answer { result ≡ load_answer n table.now }
        ensures n { self.new.n.count ≡ (if is_ok result then n else self.old.n.count) }
        ensures table { self.new.table ≡ (if is_ok result then table.now else self.old.table) }
    {
        let n = Partitions::try_from(n)?;
        if table.len() != CELLS {
            return Err(MapFault::TableLength(table.len()));
        }
        if let Some(index) = first_bad_entry(n, table) {
            return Err(MapFault::Entry(index));
        }
        self.n = n;
        self.table.copy_from_slice(table);
        Ok(())
    }
}

// The index of the first entry that is none of the n partitions.
fn first_bad_entry(n: Partitions, table: &[u8]) -> Option<usize>
    ensures { result ≡ position (λ p. not (within 1 n.count p)) table.now }
{
    table.iter().position(|entry| !n.contains(*entry))
}

impl CellMap for ListedMap {
    ghost meaning = { λ m. listed m.n.count m.table };

    ghost lawful = { λ m. listed_lawful m.n.count m.table m.n.some m.n.few m.good };

    fn partitions(&self) -> u8 {
        self.n.count()
    }

    fn partition_of(&self, cell: u16) -> u8 {
        self.table.get(usize::from(cell)).copied().unwrap_or(0)
    }
}

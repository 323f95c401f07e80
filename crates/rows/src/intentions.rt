// Making and reading an intention.
ghost use Rattle.std.specs.Prelude.{◌≡◌, ◌≤◌, true, length};
ghost use Rattle.model.specs.Finding.{all};
ghost use Rattle.rows.specs.Known.{known};
ghost use Rattle.rows.specs.Views.{intention_of};

use super::intention::Intention;
use terms::{Access, MOST_ACCESSES};

impl Intention {
    pub fn new(snapshot: u16, accesses: &[Access]) -> Intention
        requires some { 1 ≤ length accesses.now }
        requires few { length accesses.now ≤ 8 }
        requires marked { all known accesses.now ≡ true }
        ensures { intention_of result ≡ record { snapshot = snapshot; accesses = accesses.now } }
    {
        // `as`, since there are at most eight.
        let count = accesses.len() as u8;
        let mut kept = [Access { mode: 0, cell: 0 }; MOST_ACCESSES];
        kept[..accesses.len()].copy_from_slice(accesses);
        Intention {
            snapshot,
            count,
            accesses: kept,
        }
    }

    pub fn snapshot(&self) -> u16
        ensures { result ≡ (intention_of self.now).snapshot }
    {
        self.snapshot
    }

    pub fn accesses(&self) -> &[Access]
        ensures value { result.now ≡ (intention_of self.now).accesses }
        ensures some { 1 ≤ length result.now }
        ensures few { length result.now ≤ 8 }
        ensures marked { all known result.now ≡ true }
    {
        &self.accesses[..usize::from(self.count)]
    }
}

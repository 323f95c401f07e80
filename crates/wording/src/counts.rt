// How many lines there were of each kind.
ghost use Rattle.std.specs.Prelude.{◌≡◌, replicate};
ghost use Rattle.wording.specs.Kinds.{count_in, counted, more};

use frames::Kind;
use std::marker::Model;

// A count for each kind, in the order of Kind::ALL, and one for the lines that do not read. A kind's place is `kind as usize`,
// which no `From` gives.
#[derive(Drop)]
pub struct Counts {
    of_kind: [usize; Kind::ALL.len()],
    refused: usize,
}

impl Model for Counts {
    ghost use Rattle.std.specs.Prelude.{ℕ, List, [], ◌∷◌, ◌++◌};

    ghost Value = { List ℕ };

    ghost view = { λ counts. counts.of_kind ++ counts.refused ∷ [] };
}

impl Counts {
    pub fn new() -> Counts
        ensures { result ≡ replicate 9 0 }
    {
        Counts {
            of_kind: [0; Kind::ALL.len()],
            refused: 0,
        }
    }

    // The count of one kind, or of the lines that do not read.
    pub fn of(&self, kind: Option<Kind>) -> usize
        ensures { result ≡ count_in self.now kind }
    {
        match kind {
            Some(kind) => self.of_kind[kind as usize],
            None => self.refused,
        }
    }

    // Counts one more line.
    pub fn note(&mut self, kind: Option<Kind>)
        ensures { self.new ≡ counted self.old kind }
    {
        match kind {
            Some(kind) => count_one(&mut self.of_kind[kind as usize]),
            None => count_one(&mut self.refused),
        }
    }
}

// One more, as far as the count goes.
fn count_one(count: &mut usize)
    ensures { count.new ≡ more count.old }
{
    *count = count.saturating_add(1);
}

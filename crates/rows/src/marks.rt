// The marks: for each cell and each mode, the last committed number with such an access.
ghost use Rattle.std.specs.Prelude.{◌≡◌, true, ◌+◌, ◌*◌, ◌<◌, ◌≤◌, [], ◌∷◌, replicate, slice_set};
ghost use Rattle.model.specs.Finding.{all};
ghost use Rattle.model.specs.State.{no_marks_yet, mark_at};
ghost use Rattle.rows.specs.Known.{known};
ghost use Rattle.model.specs.Model.{marking};

use std::marker::Model;
use terms::{Access, CELLS};

// A cell has a mark for each of the four modes that a rule may know.
#[derive(Drop)]
pub struct Marks {
    by_cell: [[u16; 4]; CELLS],
}

impl Model for Marks {
    ghost use Rattle.std.specs.Prelude.{◌≡◌, List, ℕ, length};
    ghost use Rattle.std.specs.List.{All, concat};

    ghost Value = { List ℕ };

    ghost view = { λ m. concat m.by_cell };

    ghost invariant = { λ m. All (λ marks. length marks ≡ 4) m.by_cell };
}

// A function of its own: so the prover takes the table from a clause, and doesn't write out its rows.
fn no_marks() -> [[u16; 4]; CELLS]
    ensures { result ≡ replicate 1024 (0 ∷ 0 ∷ 0 ∷ 0 ∷ []) }
{
    [[0; 4]; CELLS]
}

impl Marks {
    // No cell has a mark.
    pub fn new() -> Marks
        ensures { result ≡ no_marks_yet }
    {
        Marks {
            by_cell: no_marks(),
        }
    }

    // The last committed number with an access of this mode at this cell, or 0. The cell is an access's and the mode another's,
    // so the two are bounded here and in no type of their own.
    pub fn at(&self, cell: u16, mode: u8) -> u16
        requires { (cell ≤ 1023) × (mode < 4) }
        ensures { result ≡ mark_at self.now cell mode }
    {
        let of_cell = &self.by_cell[usize::from(cell)];
        of_cell[usize::from(mode)]
    }

    // Sets the mark of an access to a number.
    fn set_one(&mut self, access: Access, number: u16)
        requires { known access ≡ true }
        ensures { self.new ≡ slice_set self.old (4 * access.cell + access.mode) number }
    {
        self.by_cell[usize::from(access.cell)][usize::from(access.mode)] = number;
    }

    // Sets the mark of each access to a number.
    pub fn set(&mut self, accesses: &[Access], number: u16)
        requires { all known accesses.now ≡ true }
        ensures { self.new ≡ marking number accesses.now self.old }
    {
        for access in accesses {
            self.set_one(*access, number);
        }
    }
}

// Counting: validation for counters, which an add moves without reading them.
ghost use Rattle.std.specs.Prelude.{refl};
ghost use Rattle.rules.specs.Relations.{counting as meant};
ghost use Rattle.std.proofs.Common.{rules};

use super::rule::ClashRule;
use terms::{ADD, READ, WRITE};

#[derive(Clone, Copy, Debug, PartialEq, Eq)]
pub struct Counting;

impl ClashRule for Counting {
    const MODES: u8 = 3;

    ghost MODES = { meant.modes };

    ghost meaning = { meant };

    ghost counted = { refl };

    ghost lawful = { Prim.search rules };

    fn relates(&self, earlier: u8, later: u8) -> bool {
        matches!(earlier, WRITE | ADD) && later == READ
    }
}

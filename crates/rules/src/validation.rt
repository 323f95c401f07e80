// Backward validation: what a later intention read must not have been written since its snapshot.
ghost use Rattle.std.specs.Prelude.{refl};
ghost use Rattle.rules.specs.Relations.{validation as meant};
ghost use Rattle.std.proofs.Common.{rules};

use super::rule::ClashRule;
use terms::{READ, WRITE};

#[derive(Clone, Copy, Debug, PartialEq, Eq)]
pub struct Validation;

impl ClashRule for Validation {
    const MODES: u8 = 2;

    ghost MODES = { meant.modes };

    ghost meaning = { meant };

    ghost counted = { refl };

    ghost lawful = { Prim.search rules };

    fn relates(&self, earlier: u8, later: u8) -> bool {
        earlier == WRITE && later == READ
    }
}

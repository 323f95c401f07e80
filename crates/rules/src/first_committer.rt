// First committer wins: of two intentions that write one cell side by side, the later one aborts.
ghost use Rattle.std.specs.Prelude.{refl};
ghost use Rattle.rules.specs.Relations.{first_committer as meant};
ghost use Rattle.std.proofs.Common.{rules};

use super::rule::ClashRule;
use terms::WRITE;

#[derive(Clone, Copy, Debug, PartialEq, Eq)]
pub struct FirstCommitter;

impl ClashRule for FirstCommitter {
    const MODES: u8 = 2;

    ghost MODES = { meant.modes };

    ghost meaning = { meant };

    ghost counted = { refl };

    ghost lawful = { Prim.search rules };

    fn relates(&self, earlier: u8, later: u8) -> bool {
        earlier == WRITE && later == WRITE
    }
}

// A row of the log: an intention, and what became of it.
ghost use Rattle.std.specs.Prelude.{◌≡◌};
ghost use Rattle.model.specs.Book.{decided};
ghost use Rattle.rows.specs.Views.{row_of};

use super::intention::Intention;
use model::Verdict;

#[derive(Clone, Copy)]
pub struct LogRow {
    pub intention: Intention,
    pub verdict: Verdict,
}

impl LogRow {
    // Records what became of the intention. A yes or no and no Verdict, which might be undecided.
    pub fn decide(&mut self, commits: bool)
        ensures { row_of self.new ≡ record { intention = (row_of self.old).intention; verdict = decided commits } }
    {
        self.verdict = if commits {
            Verdict::Committed
        } else {
            Verdict::Aborted
        };
    }
}

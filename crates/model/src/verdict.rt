// What becomes of an intention.

// What is known of an intention by its number. Three cases and no Option of two: undecided is an answer of the format.
#[derive(Clone, Copy, Debug, Default, PartialEq, Eq)]
pub enum Verdict {
    // It is not finished.
    #[default]
    Undecided,
    Committed,
    Aborted,
}

// Why an intention is aborted: a cell, and the earlier committed number that it clashes with there.
#[derive(Clone, Copy, Debug, PartialEq, Eq)]
pub struct Clash {
    pub cell: u16,
    pub number: u16,
}

// How a finish ends. No Option and no Result: an abort is an answer and no refusal, so a `?` must not carry it up.
#[derive(Clone, Copy, Debug, PartialEq, Eq)]
pub enum Outcome {
    Commit,
    Abort(Clash),
}

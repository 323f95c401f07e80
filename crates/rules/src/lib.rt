// Clash rules: whether a later access to a cell clashes with an earlier committed one.
#![tactic(auto)]

mod counting;
mod first_committer;
mod rule;
mod validation;

pub use counting::Counting;
pub use first_committer::FirstCommitter;
pub use rule::ClashRule;
pub use validation::Validation;

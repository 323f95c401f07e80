// What a certifier is proved against: the types that its answers are made of, what every call answers and leaves,
// and the law that holds of every sheet of calls.
#![tactic(auto)]

ghost use Rattle.model.specs.Cases.{WorkedCases};
ghost use Rattle.model.specs.Law.{CertifierStands, UnitsAgree};

mod fault;
mod status;
mod tally;
mod verdict;

pub use fault::CallFault;
pub use status::Status;
pub use tally::Tally;
pub use verdict::{Clash, Outcome, Verdict};

// The law holds of every sheet of calls, for every rule and every map within their laws. Only the contract matters.
#[tactic(auto, using(crate::proofs::Stands::certifier_stands_lem))]
pub fn certifier_stands()
    ensures { CertifierStands }
{}

// Two units with the same rule decide every intention alike, however many partitions each has and in whatever order its
// workers run. Only the contract matters.
pub fn units_agree()
    ensures { UnitsAgree }
{}

// The worked cases of needs and verdicts are as the definitions have them. Only the contract matters.
#[tactic(auto, using(crate::proofs::Worked::worked_cases))]
pub fn cases_stand()
    ensures { WorkedCases }
{}

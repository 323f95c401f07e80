// Intentions and the rows of the log, the marks, and the last assigned numbers.
#![tactic(auto)]

mod intention;
mod intentions;
mod lasts;
mod logrow;
mod marks;
mod scans;

pub use intention::Intention;
pub use lasts::LastNumbers;
pub use logrow::LogRow;
pub use marks::Marks;
pub use scans::{first_unknown_cell, first_unknown_mode};

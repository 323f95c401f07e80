// The lines of a log in plain words, for a person who reads it.
#![tactic(auto)]

mod access;
mod back;
mod counts;
mod fault;
mod frame;
mod kind;
mod line;

pub use back::is_line_of;
pub use counts::Counts;
pub use kind::{KindWords, line_kind};
pub use line::LineWords;

// A ring of at most 16 entries, of any type, in a row that is lent.
#![tactic(auto)]

mod places;
mod ring;

pub use places::{CAPACITY, Places};
pub use ring::{Full, drop_oldest, held_count, oldest_place, push};

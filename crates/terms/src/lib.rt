// The words that every layer shares: what an access is, and the numbers that modes, cells, partitions and workers have.
#![tactic(auto)]

mod access;
mod worker;

pub use access::{
    ADD, Access, CELLS, LAST_CELL, LOG_LENGTH, MOST_ACCESSES, MOST_PARTITIONS, READ, WRITE,
};
pub use worker::WorkerId;

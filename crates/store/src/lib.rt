// What a certifier keeps, with no rule and no map: the log, the workers, the marks, the last assigned numbers and the
// counts. Every call on it says what it leaves in the model's words. All memory is taken when a store is made.
#![tactic(auto)]

mod making;
mod reads;
mod store;
mod writes;

pub use store::Store;

// The sixteen workers: what each is doing, what it posted, and its orders.
// Worker 0 takes joint orders, which need something from many workers; the others take plain ones, which need something
// from worker 0 alone.
#![tactic(auto)]

mod joint_order;
mod moves;
mod order_kind;
mod plain_order;
mod reads;
mod record;
mod table;
mod worker;
mod writes;

pub use joint_order::JointOrder;
pub use moves::{Move, next_status};
pub use order_kind::OrderKind;
pub use plain_order::PlainOrder;
pub use record::WorkerRecord;
pub use table::{OrderPlace, Workers};

// The table of the sixteen workers.
ghost use Rattle.std.specs.Prelude.{◌≡◌, ◌<◌, vec_len};

use super::joint_order::JointOrder;
use super::plain_order::PlainOrder;
use super::record::WorkerRecord;

// Worker 0, and the workers 1 to 15 after it. Their records differ in type, so a function that reads or writes a worker
// looks which it is: a `dyn` of both could not be handed out.
// No impl Model: a clause says where an oldest order stands in its row, which a list of the model's workers doesn't show.
#[derive(Drop)]
pub struct Workers {
    pub(crate) joint: WorkerRecord<JointOrder>,
    // worker p stands at p - 1; on the heap, so that a store is small to move
    pub(crate) plain: Vec<WorkerRecord<PlainOrder>>,
    ghost manned: { vec_len plain ≡ 15 },
}

// Where a worker's oldest order stands in its row. It is good until the worker's orders change.
// The worker is a plain number: with a type that has a model, a place would have to be copied before it is asked of again.
#[derive(Clone, Copy)]
pub struct OrderPlace {
    pub(crate) worker: usize,
    pub(crate) place: usize,
    ghost low: { worker < 16 },
}

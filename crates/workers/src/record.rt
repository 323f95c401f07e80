// One worker.
use model::Status;
use rings::{CAPACITY, Places};

// What a worker is doing, the number that it last finished, and its orders of one kind: a ring in a row.
// Numbers begin at 1, and a worker that has finished none posted 0, which every need of none is met by.
#[derive(Drop)]
pub struct WorkerRecord<O> {
    pub(crate) status: Status,
    pub(crate) posted: u16,
    pub(crate) row: [O; CAPACITY],
    pub(crate) places: Places,
}

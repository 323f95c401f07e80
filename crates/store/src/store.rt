// The store.
ghost use Rattle.std.specs.Prelude.{◌≡◌, ◌+◌, ◌≤◌, true, vec_len, vec_capacity, sum_by};
ghost use Rattle.model.specs.Finding.{all};
ghost use Rattle.workers.specs.Views.{workers_of};
ghost use Rattle.store.specs.Fits.{fits, order_count_of};

use rows::{LastNumbers, LogRow, Marks};
use workers::Workers;

// No impl Model: a clause says where a worker's oldest order stands in its row, which a state of the model doesn't show.
#[derive(Drop)]
pub struct Store {
    // number k stands at k - 1
    pub(crate) rows: Vec<LogRow>,
    pub(crate) workers: Workers,
    pub(crate) marks: Marks,
    pub(crate) lasts: LastNumbers,
    pub(crate) assigned: u16,
    pub(crate) finished: u16,
    ghost reserved: { 512 ≤ vec_capacity rows },
    ghost short: { vec_len rows ≤ 512 },
    ghost handed: { assigned ≤ vec_len rows },
    ghost fit: { all (fits (vec_len rows)) (workers_of workers) ≡ true },
    ghost counted: { finished + sum_by order_count_of (workers_of workers) ≡ assigned },
}

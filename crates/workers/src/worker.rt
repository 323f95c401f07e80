// What is done with one worker.
ghost use Rattle.std.specs.Prelude.{◌≡◌, ◌<◌, ◌≤◌, true, length, MatchOption, slice_index};
ghost use Rattle.model.specs.State.{no_worker, in_status, is_empty, is_on, oldest_of};
ghost use Rattle.model.specs.Model.{posting, pushed, queued_count_of};
ghost use Rattle.workers.specs.Records.{worker_of, IsOldestIn};

use super::order_kind::OrderKind;
use super::record::WorkerRecord;
use model::Status;
use rings::{CAPACITY, Places, drop_oldest, held_count, oldest_place, push};
use terms::WorkerId;

impl<O: OrderKind> WorkerRecord<O> {
    // An idle worker without orders; the entry fills the row, and is never looked at.
    pub(crate) fn new(entry: O) -> WorkerRecord<O>
        ensures { worker_of O.shown result ≡ no_worker }
    {
        WorkerRecord {
            status: Status::Idle,
            posted: 0,
            row: [entry; CAPACITY],
            places: Places::new(),
        }
    }

    pub(crate) fn is_open(&self) -> bool
        ensures { result ≡ is_on self.now.status }
    {
        self.status.is_open()
    }

    // How many orders the worker has.
    pub(crate) fn order_count(&self) -> usize
        ensures value { result ≡ length (worker_of O.shown self.now).orders }
        ensures bound { result ≤ 16 }
    {
        held_count(&self.row, self.places)
    }

    // How many orders the worker has and is not open on.
    pub(crate) fn queued_count(&self) -> u16
        ensures value { result ≡ queued_count_of (worker_of O.shown self.now) }
        ensures bound { result ≤ 16 }
    {
        // `as`, since there are at most sixteen.
        let count = self.order_count() as u16;
        count.saturating_sub(u16::from(self.is_open()))
    }

    // The place of the oldest order in the row.
    pub(crate) fn oldest_place(&self) -> Option<usize>
        ensures { MatchOption result (is_empty (worker_of O.shown self.now).orders ≡ true) (λ place. IsOldestIn O.shown self.now place) }
    {
        oldest_place(&self.row, self.places)
    }

    // The number of the oldest order, which stands at this place.
    pub(crate) fn oldest_number(&self, place: usize) -> u16
        requires { IsOldestIn O.shown self.now place }
        ensures { result ≡ (oldest_of (worker_of O.shown self.now).orders).number }
    {
        self.row[place].number()
    }

    // What the oldest order, which stands at this place, needs from worker v.
    pub(crate) fn oldest_need(&self, place: usize, v: WorkerId) -> u16
        requires { IsOldestIn O.shown self.now place }
        ensures { result ≡ slice_index (oldest_of (worker_of O.shown self.now).orders).needs v }
    {
        self.row[place].need(v)
    }

    pub(crate) fn set_status(&mut self, status: Status)
        ensures { worker_of O.shown self.new ≡ in_status status (worker_of O.shown self.old) }
    {
        self.status = status;
    }

    // Posts the number, drops the oldest order and is idle.
    pub(crate) fn post(&mut self, number: u16)
        ensures { worker_of O.shown self.new ≡ posting number (worker_of O.shown self.old) }
    {
        drop_oldest(&self.row, &mut self.places);
        self.posted = number;
        self.status = Status::Idle;
    }

    // Puts an order behind all others, for which there is room.
    pub(crate) fn push(&mut self, order: O)
        requires { length (worker_of O.shown self.old).orders < 16 }
        ensures { worker_of O.shown self.new ≡ pushed (O.shown order) (worker_of O.shown self.old) }
    {
        let _ = push(&mut self.row, &mut self.places, order);
    }
}

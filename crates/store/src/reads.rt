// What is read of a store.
ghost use Rattle.std.specs.Prelude.{◌≡◌, ◌<◌, ◌≤◌, true, length, sum_by, count_by, MatchOption, slice_index};
ghost use Rattle.model.specs.Finding.{exists};
ghost use Rattle.model.specs.State.{last_number, row_at, worker_at, mark_at, is_empty, is_on};
ghost use Rattle.model.specs.Model.{oldest_at, lacks, queued_count_of};
ghost use Rattle.rows.specs.Views.{intention_of, row_of};
ghost use Rattle.workers.specs.Views.{IsOldest};
ghost use Rattle.store.specs.Views.{view};

use super::store::Store;
use model::{Status, Verdict};
use rows::{Intention, LogRow};
use terms::WorkerId;
use workers::OrderPlace;

impl Store {
    // The last number that was appended.
    pub fn last(&self) -> u16
        ensures value { result ≡ last_number (view self.now) }
        ensures bound { result ≤ 512 }
    {
        // `as`, since it is proved to fit: a `try_from` would bring a refusal that cannot be.
        self.rows.len() as u16
    }

    // How many numbers are assigned.
    pub fn assigned(&self) -> u16
        ensures value { result ≡ (view self.now).assigned }
        ensures bound { result ≤ last_number (view self.now) }
    {
        self.assigned
    }

    // How many numbers are finished.
    pub fn finished(&self) -> u16
        ensures { result ≡ (view self.now).finished }
    {
        self.finished
    }

    // The row of a number. Which numbers there are changes with the log, so that it is one stands in the clauses and in no type.
    fn row(&self, number: u16) -> &LogRow
        requires { (1 ≤ number) × (number ≤ last_number (view self.now)) }
        ensures { row_of result.now ≡ row_at (view self.now).rows number }
    {
        &self.rows[usize::from(number) - 1]
    }

    // The intention of a number.
    pub fn intention(&self, number: u16) -> &Intention
        requires { (1 ≤ number) × (number ≤ last_number (view self.now)) }
        ensures { intention_of result.now ≡ (row_at (view self.now).rows number).intention }
    {
        &self.row(number).intention
    }

    // What is known of a number.
    pub fn verdict(&self, number: u16) -> Verdict
        requires { (1 ≤ number) × (number ≤ last_number (view self.now)) }
        ensures { result ≡ (row_at (view self.now).rows number).verdict }
    {
        self.row(number).verdict
    }

    // What a worker is doing; one that is none of the sixteen is idle. Any number, since a ticket may hold any.
    pub fn status(&self, w: u8) -> Status
        ensures { result ≡ (worker_at (view self.now).workers w).status }
    {
        WorkerId::new(w).map_or(Status::Idle, |w| self.workers.status(w))
    }

    // How many orders worker w has. With its bound, since callers count with it.
    pub fn order_count(&self, w: WorkerId) -> usize
        ensures value { result ≡ length (worker_at (view self.now).workers w).orders }
        ensures bound { result ≤ 16 }
    {
        self.workers.order_count(w)
    }

    // Where the oldest order of worker w stands.
    pub fn oldest_place(&self, w: WorkerId) -> Option<OrderPlace>
        ensures { MatchOption result (is_empty (worker_at (view self.now).workers w).orders ≡ true) (λ at. (at.worker ≡ w) × IsOldest self.now.workers at) }
    {
        self.workers.oldest_place(w)
    }

    // The number of the oldest order of a worker, which stands at this place.
    pub fn oldest_number(&self, at: OrderPlace) -> u16
        requires { IsOldest self.now.workers at }
        ensures { result ≡ (oldest_at (view self.now) at.worker).number }
    {
        self.workers.oldest_number(at)
    }

    // What the oldest order of a worker, which stands at this place, needs from worker v.
    pub fn oldest_need(&self, at: OrderPlace, v: WorkerId) -> u16
        requires { IsOldest self.now.workers at }
        ensures { result ≡ slice_index (oldest_at (view self.now) at.worker).needs v }
    {
        self.workers.oldest_need(at, v)
    }

    // Whether the oldest order at this place waits for one of the first workers.
    pub fn waits(&self, at: OrderPlace, workers: u8) -> bool
        requires low { workers ≤ 16 }
        requires oldest { IsOldest self.now.workers at }
        ensures { result ≡ exists (lacks (view self.now) (oldest_at (view self.now) at.worker)) workers }
    {
        self.workers.lacking(at, workers)
    }

    // The last committed number with an access of this mode at this cell, or 0.
    pub fn mark(&self, cell: u16, mode: u8) -> u16
        requires { (cell ≤ 1023) × (mode < 4) }
        ensures { result ≡ mark_at (view self.now).marks cell mode }
    {
        self.marks.at(cell, mode)
    }

    // How many workers are open.
    pub fn open_count(&self) -> u8
        ensures { result ≡ count_by (λ x. is_on x.status) (view self.now).workers }
    {
        self.workers.open_count()
    }

    // How many orders no worker is open on.
    pub fn queued_count(&self) -> u16
        ensures { result ≡ sum_by queued_count_of (view self.now).workers }
    {
        self.workers.queued_count()
    }
}

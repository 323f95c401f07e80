// What is read of the workers.
ghost use Rattle.std.specs.Prelude.{◌≡◌, ◌<◌, ◌≤◌, true, length, sum_by, count_by, MatchOption, slice_index};
ghost use Rattle.model.specs.Finding.{exists};
ghost use Rattle.model.specs.State.{worker_at, is_empty, oldest_of, is_on};
ghost use Rattle.model.specs.Model.{queued_count_of};
ghost use Rattle.workers.specs.Views.{workers_of, orders_at, IsOldest, lacks_at};

use super::table::{OrderPlace, Workers};
use model::Status;
use terms::WorkerId;

impl Workers {
    // What worker w is doing.
    pub fn status(&self, w: WorkerId) -> Status
        ensures { result ≡ (worker_at (workers_of self.now) w).status }
    {
        match w.index() {
            0 => self.joint.status,
            p => self.plain[p - 1].status,
        }
    }

    // The number that worker w last finished.
    pub fn posted(&self, w: WorkerId) -> u16
        ensures { result ≡ (worker_at (workers_of self.now) w).posted }
    {
        match w.index() {
            0 => self.joint.posted,
            p => self.plain[p - 1].posted,
        }
    }

    // How many orders worker w has. With its bound, since callers count with it.
    pub fn order_count(&self, w: WorkerId) -> usize
        ensures value { result ≡ length (orders_at self.now w) }
        ensures bound { result ≤ 16 }
    {
        match w.index() {
            0 => self.joint.order_count(),
            p => self.plain[p - 1].order_count(),
        }
    }

    // Where the oldest order of worker w stands.
    pub fn oldest_place(&self, w: WorkerId) -> Option<OrderPlace>
        ensures { MatchOption result (is_empty (orders_at self.now w) ≡ true) (λ at. (at.worker ≡ w) × IsOldest self.now at) }
    {
        let worker = w.index();
        let place = match worker {
            0 => self.joint.oldest_place(),
            p => self.plain[p - 1].oldest_place(),
        }?;
        Some(OrderPlace { worker, place })
    }

    // The number of the oldest order of a worker, which stands at this place.
    pub fn oldest_number(&self, at: OrderPlace) -> u16
        requires { IsOldest self.now at }
        ensures { result ≡ (oldest_of (orders_at self.now at.worker)).number }
    {
        match at.worker {
            0 => self.joint.oldest_number(at.place),
            p => self.plain[p - 1].oldest_number(at.place),
        }
    }

    // What the oldest order of a worker, which stands at this place, needs from worker v.
    pub fn oldest_need(&self, at: OrderPlace, v: WorkerId) -> u16
        requires { IsOldest self.now at }
        ensures { result ≡ slice_index (oldest_of (orders_at self.now at.worker)).needs v }
    {
        match at.worker {
            0 => self.joint.oldest_need(at.place, v),
            p => self.plain[p - 1].oldest_need(at.place, v),
        }
    }

    // How many workers are open.
    pub fn open_count(&self) -> u8
        ensures { result ≡ count_by (λ x. is_on x.status) (workers_of self.now) }
    {
        let mut count = u8::from(self.joint.is_open());
        // By place: over the vector's records it took twice the time.
        for p in 0..15usize {
            let worker = &self.plain[p];
            count += u8::from(worker.is_open());
        }
        count
    }

    // How many orders no worker is open on.
    pub fn queued_count(&self) -> u16
        ensures { result ≡ sum_by queued_count_of (workers_of self.now) }
    {
        // A `for`: a `sum` of numbers of sixteen bits gets no bound from the prover.
        let mut count = self.joint.queued_count();
        for worker in &self.plain {
            count += worker.queued_count();
        }
        count
    }

    // Whether worker v has not posted what the oldest order at this place needs from it.
    fn lacks(&self, at: OrderPlace, v: u8) -> bool
        requires low { v < 16 }
        requires oldest { IsOldest self.now at }
        ensures { result ≡ lacks_at self.now at.worker v }
    {
        WorkerId::new(v).is_some_and(|v| self.posted(v) < self.oldest_need(at, v))
    }

    // Whether one of the first workers has not posted what the oldest order at this place needs from it.
    pub fn lacking(&self, at: OrderPlace, count: u8) -> bool
        requires low { count ≤ 16 }
        requires oldest { IsOldest self.now at }
        ensures { result ≡ exists (lacks_at self.now at.worker) count }
    {
        (0..count).any(|v| self.lacks(at, v))
    }
}

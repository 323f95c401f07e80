// What is written of a store.
ghost use Rattle.std.specs.Prelude.{◌≡◌, ◌<◌, ◌≤◌, true, false, length};
ghost use Rattle.model.specs.State.{last_number, worker_at, is_empty, is_held_on};
ghost use Rattle.model.specs.Model.{append_leaves, next_number};
ghost use Rattle.rows.specs.Views.{intention_of};
ghost use Rattle.workers.specs.Moves.{next_status_of};
ghost use Rattle.store.specs.Fits.{begins_oldest};
ghost use Rattle.store.specs.Steps.{plain_assigned, joint_assigned, moved, with_marks, with_verdict, closed, settled};
ghost use Rattle.store.specs.Views.{view};

use super::store::Store;
use model::{Status, Verdict};
use rows::{Intention, LogRow};
use terms::WorkerId;
use workers::{JointOrder, Move, PlainOrder, next_status};

impl Store {
    // Enters an intention under the next number.
    pub fn append(&mut self, intention: Intention)
        requires { last_number (view self.old) < 512 }
        ensures { view self.new ≡ append_leaves (view self.old) (intention_of intention).snapshot (intention_of intention).accesses }
    {
        self.rows.push_reserved(LogRow {
            intention,
            verdict: Verdict::Undecided,
        });
    }

    // Worker p takes the next number as a plain order. That there is one, and room for it, the call has asked before.
    pub fn assign_plain(&mut self, p: WorkerId) -> u16
        requires some { 0 < p }
        requires left { (view self.old).assigned < last_number (view self.old) }
        requires room { length (worker_at (view self.old).workers p).orders < 16 }
        ensures answer { result ≡ next_number (view self.old) }
        ensures after { view self.new ≡ plain_assigned (view self.old) p }
    {
        let number = self.assigned + 1;
        let need = self.lasts.plain_need(p);
        self.workers.push_plain(p, PlainOrder { number, need });
        self.lasts.assign_plain(p, number);
        self.assigned = number;
        number
    }

    // Worker 0 takes the next number as a joint order that touches these partitions.
    pub fn assign_joint(&mut self, touched: &[bool; 16]) -> u16
        requires left { (view self.old).assigned < last_number (view self.old) }
        requires room { length (worker_at (view self.old).workers 0).orders < 16 }
        ensures answer { result ≡ next_number (view self.old) }
        ensures after { view self.new ≡ joint_assigned (view self.old) touched.now }
    {
        let number = self.assigned + 1;
        let needs = self.lasts.joint_needs(touched);
        self.workers.push_joint(JointOrder { number, needs });
        self.lasts.assign_joint(touched, number);
        self.assigned = number;
        number
    }

    // Moves worker w as the call does, if the call is for a worker in its status.
    pub fn move_worker(&mut self, w: u8, call: Move) -> Option<Status>
        requires { begins_oldest (worker_at (view self.old).workers w).orders call ≡ true }
        ensures answer { result ≡ next_status_of (worker_at (view self.old).workers w).status call }
        ensures after { view self.new ≡ moved (view self.old) w result }
    {
        let w = WorkerId::new(w)?;
        let status = next_status(self.workers.status(w), call)?;
        self.workers.set_status(w, status);
        Some(status)
    }

    // Sets the marks of a number that commits. A yes or no, as the book says it: which clash an abort has is not stored.
    fn mark_commit(&mut self, number: u16, commits: bool)
        requires { (1 ≤ number) × (number ≤ last_number (view self.old)) }
        ensures { view self.new ≡ with_marks (view self.old) number commits }
    {
        if !commits {
            return;
        }
        let row = &self.rows[usize::from(number) - 1];
        self.marks.set(row.intention.accesses(), number);
    }

    // Records the verdict of a number.
    fn record_verdict(&mut self, number: u16, commits: bool)
        requires { (1 ≤ number) × (number ≤ last_number (view self.old)) }
        ensures { view self.new ≡ with_verdict (view self.old) number commits }
    {
        let row = &mut self.rows[usize::from(number) - 1];
        row.decide(commits);
    }

    // Worker w is done with a number: it posts the number, drops its oldest order and is idle.
    fn close(&mut self, w: WorkerId, number: u16)
        requires { is_empty (worker_at (view self.old).workers w).orders ≡ false }
        ensures { view self.new ≡ closed (view self.old) w number }
    {
        self.workers.post(w, number);
        self.finished += 1;
    }

    // Worker w, which is held on the number, finishes it: the marks if it commits, the verdict, and the worker.
    pub fn settle(&mut self, w: u8, number: u16, commits: bool)
        requires { is_held_on number (worker_at (view self.old).workers w).status ≡ true }
        ensures { view self.new ≡ settled (view self.old) w number commits }
    {
        let Some(w) = WorkerId::new(w) else {
            unreachable!()
        };
        self.mark_commit(number, commits);
        self.record_verdict(number, commits);
        self.close(w, number);
    }
}

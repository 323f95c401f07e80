// What is written of the workers.
ghost use Rattle.std.specs.Prelude.{◌≡◌, ◌<◌, length, replicate, IfOk, vec_len, slice_set};
ghost use Rattle.model.specs.State.{worker_at, in_status, no_workers, no_worker};
ghost use Rattle.model.specs.Model.{pushed, posting};
ghost use Rattle.workers.specs.Orders.{plain_order, joint_order};
ghost use Rattle.workers.specs.Views.{workers_of, orders_at, plain_workers};

use super::joint_order::JointOrder;
use super::plain_order::PlainOrder;
use super::record::WorkerRecord;
use super::table::Workers;
use model::Status;
use std::alloc::{AllocError, Global};
use terms::WorkerId;

// The workers 1 to 15, all idle.
fn idle_plain(heap: Global) -> Result<Vec<WorkerRecord<PlainOrder>>, AllocError>
    ensures { IfOk result (λ v. (vec_len v ≡ 15) × (plain_workers v.items ≡ replicate 15 no_worker)) }
{
    let mut plain = Vec::with_capacity(heap, 15)?;
    for _ in 0..15usize {
        plain.push_reserved(WorkerRecord::new(PlainOrder { number: 0, need: 0 }));
    }
    Ok(plain)
}

impl Workers {
    // Sixteen idle workers; all their memory is taken here.
    pub fn new(heap: Global) -> Result<Workers, AllocError>
        ensures { IfOk result (λ t. workers_of t ≡ no_workers) }
    {
        let plain = idle_plain(heap)?;
        let joint = WorkerRecord::new(JointOrder {
            number: 0,
            needs: [0; 16],
        });
        Ok(Workers { joint, plain })
    }

    pub fn set_status(&mut self, w: WorkerId, status: Status)
        ensures { workers_of self.new ≡ slice_set (workers_of self.old) w (in_status status (worker_at (workers_of self.old) w)) }
    {
        match w.index() {
            0 => self.joint.set_status(status),
            p => self.plain[p - 1].set_status(status),
        }
    }

    // Worker w posts the number, drops its oldest order and is idle.
    pub fn post(&mut self, w: WorkerId, number: u16)
        ensures { workers_of self.new ≡ slice_set (workers_of self.old) w (posting number (worker_at (workers_of self.old) w)) }
    {
        match w.index() {
            0 => self.joint.post(number),
            p => self.plain[p - 1].post(number),
        }
    }

    // Puts a plain order behind those of worker p. There is room: a call refuses a full worker by its cause before it comes
    // here. That p is one of the sixteen is promised back, for callers who hold p and never look at its number.
    pub fn push_plain(&mut self, p: WorkerId, order: PlainOrder)
        requires some { 0 < p }
        requires room { length (orders_at self.old p) < 16 }
        ensures after { workers_of self.new ≡ slice_set (workers_of self.old) p (pushed (plain_order order) (worker_at (workers_of self.old) p)) }
        ensures low { p < 16 }
    {
        self.plain[p.index() - 1].push(order);
    }

    // The same for a joint order and worker 0, whose record is of another type.
    pub fn push_joint(&mut self, order: JointOrder)
        requires { length (orders_at self.old 0) < 16 }
        ensures { workers_of self.new ≡ slice_set (workers_of self.old) 0 (pushed (joint_order order) (worker_at (workers_of self.old) 0)) }
    {
        self.joint.push(order);
    }
}

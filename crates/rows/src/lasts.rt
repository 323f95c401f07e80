// The last assigned numbers, which say what the next orders need.
ghost use Rattle.std.specs.Prelude.{◌≡◌, ◌<◌, slice_index, slice_set};
ghost use Rattle.model.specs.State.{no_numbers_yet};
ghost use Rattle.rows.specs.Lasts.{joint_need_of, joint_needs_of, joints_after_of};

use std::marker::Model;
use terms::WorkerId;

// Of one partition: the last joint number that touches it, and the last plain number of its worker.
#[derive(Clone, Copy, Debug, PartialEq, Eq)]
struct Last {
    joint: u16,
    plain: u16,
}

// Of every partition, by its number. None is 0 and no Option, as a need is told.
#[derive(Drop)]
pub struct LastNumbers {
    by_partition: [Last; 16],
}

impl Model for LastNumbers {
    ghost use Rattle.std.specs.Prelude.{◌≡◌, length, map};
    ghost use Rattle.rows.specs.Lasts.{LastLists};

    ghost Value = { LastLists };

    ghost view = { λ l. record { joints = map (λ x. x.joint) l.by_partition; plains = map (λ x. x.plain) l.by_partition } };

    ghost invariant = { λ l. length l.by_partition ≡ 16 };
}

impl LastNumbers {
    // Nothing is assigned.
    pub fn new() -> LastNumbers
        ensures { result ≡ record { joints = no_numbers_yet; plains = no_numbers_yet } }
    {
        LastNumbers {
            by_partition: [Last { joint: 0, plain: 0 }; 16],
        }
    }

    // What a plain order of partition p needs: the last joint number that touches it.
    pub fn plain_need(&self, p: WorkerId) -> u16
        ensures { result ≡ slice_index self.now.joints p }
    {
        self.by_partition[p.index()].joint
    }

    // What a joint order that touches these partitions needs from worker v.
    fn joint_need(&self, touched: &[bool; 16], v: usize) -> u16
        requires { v < 16 }
        ensures { result ≡ joint_need_of touched.now self.now.plains v }
    {
        if v > 0 && touched[v] {
            self.by_partition[v].plain
        } else {
            0
        }
    }

    // What a joint order that touches these partitions needs: the last plain number of each of their workers.
    pub fn joint_needs(&self, touched: &[bool; 16]) -> [u16; 16]
        ensures { result ≡ joint_needs_of touched.now self.now.plains }
    {
        let mut needs = [0; 16];
        // By place, as below.
        for (v, need) in needs.iter_mut().enumerate() {
            *need = self.joint_need(touched, v);
        }
        needs
    }

    // The number is the last plain one of partition p's worker.
    pub fn assign_plain(&mut self, p: WorkerId, number: u16)
        ensures { self.new ≡ record { joints = self.old.joints; plains = slice_set self.old.plains p number } }
    {
        self.by_partition[p.index()].plain = number;
    }

    // The number is the last joint one of these partitions.
    pub fn assign_joint(&mut self, touched: &[bool; 16], number: u16)
        ensures { self.new ≡ record { joints = joints_after_of touched.now self.old.joints number; plains = self.old.plains } }
    {
        // By place: tried with `zip(touched)`, after which the proof knows nothing of the elements.
        for (p, last) in self.by_partition.iter_mut().enumerate() {
            if touched[p] {
                last.joint = number;
            }
        }
    }
}

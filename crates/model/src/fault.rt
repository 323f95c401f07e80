// Why a call is refused. A refusal leaves the certifier as it was.
ghost use Rattle.std.specs.Prelude.{◌≡◌};
ghost use Rattle.model.specs.Faults.{call_refusal, one_or_two};

use terms::LOG_LENGTH;

#[derive(Clone, Copy, Debug, PartialEq, Eq)]
pub enum CallFault {
    // Cause 11: an intention has 1 to 8 accesses, and not this many.
    AccessCount(usize),
    // Cause 12: the snapshot is above the last number, which is this one.
    SnapshotAhead(u16),
    // Cause 13: the first access whose mode the rule does not know has this index.
    UnknownMode(usize),
    // Cause 14: the first access whose cell is above 1,023 has this index.
    UnknownCell(usize),
    // Cause 15: as many intentions are appended as a log holds, 512, which comes back.
    LogFull,
    // Cause 16: every number up to the last, which is this one, is assigned.
    NoneUnassigned(u16),
    // Cause 17: this worker has 16 orders.
    WorkerFull(u8),
    // Cause 18: there is no such worker.
    UnknownWorker(u8),
    // Cause 19: the worker is open on this number.
    WorkerOpen(u16),
    // Cause 20: this worker has no order.
    NoOrder(u8),
    // Cause 21: the order of this number waits, since a need of it is not posted.
    NeedNotPosted(u16),
    // Cause 22: this worker is not parked.
    NotParked(u8),
    // Cause 23: this worker is not held.
    NotHeld(u8),
    // Cause 24: the ticket of this worker and number does not fit; it is used up all the same.
    TicketUnfit(u8, u16),
    // Cause 25: a number is 1 to the last, which is this one.
    UnknownNumber(u16),
}

// Methods of each enum of refusals and no trait: some return one value and some two, and nothing is generic over them.
impl CallFault {
    // The number of the cause.
    pub fn cause(self) -> u8
        ensures { result ≡ (call_refusal self).cause }
    {
        match self {
            CallFault::AccessCount(_) => 11,
            CallFault::SnapshotAhead(_) => 12,
            CallFault::UnknownMode(_) => 13,
            CallFault::UnknownCell(_) => 14,
            CallFault::LogFull => 15,
            CallFault::NoneUnassigned(_) => 16,
            CallFault::WorkerFull(_) => 17,
            CallFault::UnknownWorker(_) => 18,
            CallFault::WorkerOpen(_) => 19,
            CallFault::NoOrder(_) => 20,
            CallFault::NeedNotPosted(_) => 21,
            CallFault::NotParked(_) => 22,
            CallFault::NotHeld(_) => 23,
            CallFault::TicketUnfit(_, _) => 24,
            CallFault::UnknownNumber(_) => 25,
        }
    }

    // The value that comes back with the cause, and the second one where there are two.
    pub fn returned(self) -> (usize, Option<u16>)
        ensures { one_or_two result ≡ (call_refusal self).returned }
    {
        match self {
            CallFault::AccessCount(value)
            | CallFault::UnknownMode(value)
            | CallFault::UnknownCell(value) => (value, None),
            CallFault::SnapshotAhead(number)
            | CallFault::NoneUnassigned(number)
            | CallFault::WorkerOpen(number)
            | CallFault::NeedNotPosted(number)
            | CallFault::UnknownNumber(number) => (usize::from(number), None),
            CallFault::WorkerFull(worker)
            | CallFault::UnknownWorker(worker)
            | CallFault::NoOrder(worker)
            | CallFault::NotParked(worker)
            | CallFault::NotHeld(worker) => (usize::from(worker), None),
            CallFault::LogFull => (LOG_LENGTH, None),
            CallFault::TicketUnfit(worker, number) => (usize::from(worker), Some(number)),
        }
    }
}

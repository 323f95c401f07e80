// How a call moves a worker from one status to another.
ghost use Rattle.std.specs.Prelude.{◌≡◌};
ghost use Rattle.workers.specs.Moves.{next_status_of};

use model::Status;

// A call on a worker, with the number of the order that it is about.
#[derive(Clone, Copy, Debug, PartialEq, Eq)]
pub enum Move {
    Begin(u16),
    Park(u16),
    Resume,
    Recall,
    Finish(u16),
}

// The status after the call; none where the call is not for a worker in this status.
// One match on both, so that a reader sees every pair that goes on; a table of closures would spread them.
pub fn next_status(status: Status, call: Move) -> Option<Status>
    ensures { result ≡ next_status_of status call }
{
    match (status, call) {
        (Status::Idle, Move::Begin(number)) => Some(Status::Held(number)),
        (Status::Held(held), Move::Park(number)) if held == number => Some(Status::Parked(number)),
        (Status::Parked(number), Move::Resume) => Some(Status::Held(number)),
        (Status::Held(number), Move::Recall) => Some(Status::Parked(number)),
        (Status::Held(held), Move::Finish(number)) if held == number => Some(Status::Idle),
        _ => None,
    }
}

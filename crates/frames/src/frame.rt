// What one line of a log asks for.
ghost use Rattle.std.specs.Prelude.{◌≡◌, [], replicate};
ghost use Rattle.frames.specs.Held.{content_of};
ghost use Rattle.frames.specs.Kinds.{kind_of};

use super::kind::{Kind, LONGEST_FRAME};
use arrayvec::ArrayVec;
use terms::{Access, MOST_ACCESSES};

// A frame borrows its accesses or its table: from the caller who writes it, or from the room it was read into.
// Its rule, its worker and the others are numbers, since the format takes any; which are in range is for the certifier to say.
#[derive(Clone, Copy, Debug, PartialEq, Eq)]
pub enum Frame<'a> {
    // Kind 01.
    Append {
        snapshot: u16,
        accesses: &'a [Access],
    },
    // Kind 02.
    Assign,
    // Kind 03: begin, then park.
    BeginPark {
        worker: u8,
    },
    // Kind 04: resume, then finish.
    ResumeFinish {
        worker: u8,
    },
    // Kind 05.
    Verdict {
        number: u16,
    },
    // Kind 06.
    Tally,
    // Kind 10.
    SetUpResidue {
        rule: u8,
        n: u8,
    },
    // Kind 11.
    SetUpListed {
        rule: u8,
        n: u8,
        table: &'a [u8],
    },
}

impl Frame<'_> {
    pub fn kind(self) -> Kind
        ensures { result ≡ kind_of (content_of self.entry) }
    {
        match self {
            Frame::Append { .. } => Kind::Append,
            Frame::Assign => Kind::Assign,
            Frame::BeginPark { .. } => Kind::BeginPark,
            Frame::ResumeFinish { .. } => Kind::ResumeFinish,
            Frame::Verdict { .. } => Kind::Verdict,
            Frame::Tally => Kind::Tally,
            Frame::SetUpResidue { .. } => Kind::SetUpResidue,
            Frame::SetUpListed { .. } => Kind::SetUpListed,
        }
    }
}

// Where the reader puts what a frame borrows, so that reading takes no heap. Nobody else sees what it holds.
#[derive(Drop)]
pub struct Room {
    pub(super) bytes: [u8; LONGEST_FRAME],
    pub(super) accesses: ArrayVec<Access, MOST_ACCESSES>,
}

impl Room {
    // A blank room.
    pub fn new() -> Room
        ensures bytes { result.bytes ≡ replicate 1027 0 }
        ensures accesses { result.accesses.items ≡ [] }
    {
        Room {
            bytes: [0; LONGEST_FRAME],
            accesses: ArrayVec::new(),
        }
    }
}

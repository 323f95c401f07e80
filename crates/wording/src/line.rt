// A line of a log in words.
ghost use Rattle.std.specs.Prelude.{Some};
ghost use Rattle.terms.specs.Refusals.{ok_as};
ghost use Rattle.frames.specs.Held.{content_of};
ghost use Rattle.wording.specs.Words.{line_words};

use super::fault::FaultWords;
use super::frame::FrameWords;
use frames::{Frame, LineFault};
use std::fmt;

// A line's number, and what it was read as.
#[derive(Clone, Copy, Debug, PartialEq, Eq)]
pub struct LineWords<'a> {
    pub number: usize,
    pub reading: Result<Frame<'a>, LineFault>,
}

impl fmt::Display for LineWords<'_> {
    ghost output = { λ l. Some (line_words l.number (ok_as content_of l.reading)) };

    fn fmt<W: fmt::Write>(&self, f: &mut fmt::Formatter<W>) -> fmt::Result {
        match self.reading {
            Ok(frame) => write!(f, "{}: {}", self.number, FrameWords(frame)),
            Err(fault) => write!(f, "{}: {}", self.number, FaultWords(fault)),
        }
    }
}

// What a line asks for, by which lines are counted.
ghost use Rattle.std.specs.Prelude.{◌≡◌, Some};
ghost use Rattle.terms.specs.Refusals.{ok_as};
ghost use Rattle.frames.specs.Held.{content_of};
ghost use Rattle.wording.specs.Kinds.{kind_in, kind_words};

use frames::{Frame, Kind, LineFault};
use std::fmt;

// The kind of what a line was read as, or none if it does not read.
pub fn line_kind(reading: Result<Frame<'_>, LineFault>) -> Option<Kind>
    ensures { result ≡ kind_in (ok_as content_of reading.entry) }
{
    reading.ok().map(Frame::kind)
}

// That kind, or that the line does not read.
#[derive(Clone, Copy, Debug, PartialEq, Eq)]
pub struct KindWords(pub Option<Kind>);

impl fmt::Display for KindWords {
    ghost output = { λ words. Some (kind_words words.0) };

    fn fmt<W: fmt::Write>(&self, f: &mut fmt::Formatter<W>) -> fmt::Result {
        f.write_str(kind_name(self.0))
    }
}

fn kind_name(kind: Option<Kind>) -> &'static str
    ensures { result.now ≡ kind_words kind }
{
    match kind {
        Some(Kind::Append) => "append",
        Some(Kind::Assign) => "assign",
        Some(Kind::BeginPark) => "begin, park",
        Some(Kind::ResumeFinish) => "resume, finish",
        Some(Kind::Verdict) => "verdict",
        Some(Kind::Tally) => "tally",
        Some(Kind::SetUpResidue) => "set up, residue map",
        Some(Kind::SetUpListed) => "set up, listed map",
        None => "does not read",
    }
}

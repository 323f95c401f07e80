// Frames in words.
ghost use Rattle.std.specs.Prelude.{◌≡◌, Some};
ghost use Rattle.frames.specs.Held.{content_of};
ghost use Rattle.wording.specs.Words.{rule_name_of, rule_words, frame_words};

use super::access::AccessesWords;
use frames::Frame;
use std::fmt;

// The rule that a set-up's rule byte stands for.
// A match and no enum: two bytes stand for one rule, and a frame may hold a byte of none.
fn rule_name(rule: u8) -> &'static str
    ensures { result.now ≡ rule_name_of rule }
{
    match rule {
        0 | 1 => "validation",
        2 => "first committer",
        3 => "counting",
        _ => "unknown",
    }
}

#[derive(Clone, Copy)]
struct RuleWords(u8);

impl fmt::Display for RuleWords {
    ghost output = { λ r. Some (rule_words r.0) };

    fn fmt<W: fmt::Write>(&self, f: &mut fmt::Formatter<W>) -> fmt::Result {
        write!(f, "rule {} ({})", self.0, rule_name(self.0))
    }
}

#[derive(Clone, Copy)]
pub struct FrameWords<'a>(pub Frame<'a>);

impl fmt::Display for FrameWords<'_> {
    ghost output = { λ x. Some (frame_words (content_of x.0)) };

    fn fmt<W: fmt::Write>(&self, f: &mut fmt::Formatter<W>) -> fmt::Result {
        match self.0 {
            Frame::Append { snapshot, accesses } => {
                write!(
                    f,
                    "append, snapshot {snapshot}: {}",
                    AccessesWords(accesses)
                )
            }
            Frame::Assign => f.write_str("assign"),
            Frame::BeginPark { worker } => write!(f, "begin, park, worker {worker}"),
            Frame::ResumeFinish { worker } => write!(f, "resume, finish, worker {worker}"),
            Frame::Verdict { number } => write!(f, "verdict of intention {number}"),
            Frame::Tally => f.write_str("tally"),
            Frame::SetUpResidue { rule, n } => {
                write!(f, "set up, {}, residue map, n = {n}", RuleWords(rule))
            }
            Frame::SetUpListed { rule, n, .. } => {
                write!(f, "set up, {}, listed map, n = {n}", RuleWords(rule))
            }
        }
    }
}

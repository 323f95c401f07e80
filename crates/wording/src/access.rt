// Accesses in words.
ghost use Rattle.std.specs.Prelude.{Some};
ghost use Rattle.wording.specs.Words.{mode_words, access_words, more_words, accesses_words};

use std::fmt;
use terms::{ADD, Access, READ, WRITE};

// A number and no enum: a frame may hold a mode that has no name.
#[derive(Clone, Copy)]
struct ModeWords(u8);

impl fmt::Display for ModeWords {
    ghost output = { λ m. Some (mode_words m.0) };

    fn fmt<W: fmt::Write>(&self, f: &mut fmt::Formatter<W>) -> fmt::Result {
        match self.0 {
            READ => f.write_str("read"),
            WRITE => f.write_str("write"),
            ADD => f.write_str("add to"),
            mode => write!(f, "mode {mode} on"),
        }
    }
}

#[derive(Clone, Copy)]
struct AccessWords(Access);

impl fmt::Display for AccessWords {
    ghost output = { λ a. Some (access_words a.0) };

    fn fmt<W: fmt::Write>(&self, f: &mut fmt::Formatter<W>) -> fmt::Result {
        write!(f, "{} cell {}", ModeWords(self.0.mode), self.0.cell)
    }
}

// Accesses after a first one.
#[derive(Clone, Copy)]
struct MoreWords<'a>(&'a [Access]);

impl fmt::Display for MoreWords<'_> {
    ghost output = { λ a. Some (more_words a.0.now) };

    fn fmt<W: fmt::Write>(&self, f: &mut fmt::Formatter<W>) -> fmt::Result {
        for access in self.0 {
            write!(f, ", {}", AccessWords(*access))?;
        }
        Ok(())
    }
}

#[derive(Clone, Copy)]
pub struct AccessesWords<'a>(pub &'a [Access]);

impl fmt::Display for AccessesWords<'_> {
    ghost output = { λ a. Some (accesses_words a.0.now) };

    fn fmt<W: fmt::Write>(&self, f: &mut fmt::Formatter<W>) -> fmt::Result {
        match self.0 {
            [] => f.write_str("no access"),
            [first, more @ ..] => write!(f, "{}{}", AccessWords(*first), MoreWords(more)),
        }
    }
}

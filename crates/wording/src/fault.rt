// Why a line does not read, in words.
ghost use Rattle.std.specs.Prelude.{Some};
ghost use Rattle.wording.specs.Words.{cause_words, fault_words};

use frames::LineFault;
use std::fmt;

#[derive(Clone, Copy)]
struct CauseWords(LineFault);

impl fmt::Display for CauseWords {
    ghost output = { λ e. Some (cause_words e.0) };

    fn fmt<W: fmt::Write>(&self, f: &mut fmt::Formatter<W>) -> fmt::Result {
        match self.0 {
            LineFault::OddCount(characters) => write!(f, "odd count of characters, {characters}"),
            LineFault::NotHexadecimal(place) => write!(f, "no hex digit at place {place}"),
            LineFault::Empty => f.write_str("empty line"),
            LineFault::UnknownKind(kind) => write!(f, "unknown kind {kind:02X}"),
            LineFault::WrongLength(bytes) => write!(f, "wrong length, bytes: {bytes}"),
        }
    }
}

#[derive(Clone, Copy)]
pub struct FaultWords(pub LineFault);

impl fmt::Display for FaultWords {
    ghost output = { λ e. Some (fault_words e.0) };

    fn fmt<W: fmt::Write>(&self, f: &mut fmt::Formatter<W>) -> fmt::Result {
        write!(
            f,
            "does not read, cause {}: {}",
            self.0.cause(),
            CauseWords(self.0)
        )
    }
}

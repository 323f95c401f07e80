// Whether a line is the one that its frame is written as.
ghost use Rattle.std.specs.Prelude.{◌≡◌, true, Ok};
ghost use Rattle.frames.specs.Held.{content_of};
ghost use Rattle.frames.specs.Reading.{read_answer};
ghost use Rattle.wording.specs.Back.{is_line_from};

use frames::{Frame, LONGEST_LINE, write_line};

// Writes the frame, and compares. A line that reads as the frame passes, whatever it is.
pub fn is_line_of(frame: Frame<'_>, line: &[u8]) -> bool
    ensures answer { result ≡ is_line_from (content_of frame.entry) line.now }
    ensures reads { read_answer line.now ≡ Ok (content_of frame.entry) → result ≡ true }
{
    let mut out = [0; LONGEST_LINE];
    let Ok(written) = write_line(frame, &mut out) else {
        return false;
    };
    &out[..written - 1] == line
}

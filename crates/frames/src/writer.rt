// Frames into lines.
ghost use Rattle.std.specs.Prelude.{◌≡◌, ◌+◌, ◌*◌, ◌<◌, ◌≤◌, [], ◌∷◌, ◌++◌, length, take, drop, IfOk, None, Ok};
ghost use Rattle.frames.specs.Contents.{access_bytes, line_of, no_line_of, AccessesFit, FieldsFit};
ghost use Rattle.frames.specs.Held.{content_of};
ghost use Rattle.frames.specs.Hex.{hex_of};
ghost use Rattle.frames.specs.RoundTrips.{WrittenReads};
ghost use Rattle.frames.specs.Writing.{over, unless, write_answer, buffer_after};

use super::fault::WriteFault;
use super::frame::Frame;
use super::hex::put;
use super::kind::LONGEST_LINE;
use terms::{Access, CELLS, MOST_ACCESSES};

// Fills the start of the buffer with the frame's line and its line feed, and answers their length.
pub fn write_line(frame: Frame<'_>, out: &mut [u8]) -> Result<usize, WriteFault>
    ensures answer { result ≡ write_answer (content_of frame.entry) (length out.old) }
    ensures buffer { out.new ≡ buffer_after result (content_of frame.entry) out.old }
    ensures reads { WrittenReads result (content_of frame.entry) out.new }
    ensures within { IfOk result (λ n. (0 < n) × (n ≤ length out.new)) }
{
    has_line(frame)?;
    let needed = line_length(frame) + 1;
    if out.len() < needed {
        return Err(WriteFault::ShortBuffer(needed));
    }
    let end = put_frame(frame, out);
    out[end] = b'\n';
    Ok(needed)
}

// Whether some line holds the frame, or why none does.
fn has_line(frame: Frame<'_>) -> Result<(), WriteFault>
    ensures { result ≡ unless (no_line_of (content_of frame.entry)) (Ok tt) }
{
    match frame {
        Frame::Append { accesses, .. } if accesses.len() > MOST_ACCESSES => {
            Err(WriteFault::TooManyAccesses(accesses.len()))
        }
        Frame::SetUpListed { table, .. } if table.len() != CELLS => {
            Err(WriteFault::TableLength(table.len()))
        }
        _ => Ok(()),
    }
}

// How many characters the frame's line has, so that a short buffer is refused before anything is written.
fn line_length(frame: Frame<'_>) -> usize
    requires { no_line_of (content_of frame) ≡ None }
    ensures value { result ≡ length (line_of (content_of frame.entry)) }
    ensures bound { result < LONGEST_LINE }
{
    match frame {
        Frame::Append { accesses, .. } => 8 + 6 * accesses.len(),
        Frame::Assign | Frame::Tally => 2,
        Frame::BeginPark { .. } | Frame::ResumeFinish { .. } => 4,
        Frame::Verdict { .. } | Frame::SetUpResidue { .. } => 6,
        Frame::SetUpListed { table, .. } => 6 + 2 * table.len(),
    }
}

// Writes the frame's line over the start of the buffer, and answers the place after it.
fn put_frame(frame: Frame<'_>, out: &mut [u8]) -> usize
    requires held { no_line_of (content_of frame) ≡ None }
    requires room { length (line_of (content_of frame)) ≤ length out.old }
    ensures value { result ≡ length (line_of (content_of frame.entry)) }
    ensures after { out.new ≡ over (line_of (content_of frame.entry)) out.old }
    ensures fit { FieldsFit (content_of frame.entry) }
{
    let kind = u8::from(frame.kind());
    match frame {
        Frame::Append { snapshot, accesses } => {
            let [high, low] = snapshot.to_be_bytes();
            // `as`, since a frame that has a line has at most eight.
            let at = put(out, 0, &[kind, high, low, accesses.len() as u8]);
            put_accesses(accesses, out, at)
        }
        Frame::Assign | Frame::Tally => put(out, 0, &[kind]),
        Frame::BeginPark { worker } | Frame::ResumeFinish { worker } => {
            put(out, 0, &[kind, worker])
        }
        Frame::Verdict { number } => {
            let [high, low] = number.to_be_bytes();
            put(out, 0, &[kind, high, low])
        }
        Frame::SetUpResidue { rule, n } => put(out, 0, &[kind, rule, n]),
        Frame::SetUpListed { rule, n, table } => {
            let at = put(out, 0, &[kind, rule, n]);
            put(out, at, table)
        }
    }
}

// Writes the digits of the accesses from a place on, and answers the place after them.
fn put_accesses(accesses: &[Access], out: &mut [u8], at: usize) -> usize
    requires { at + 6 * length accesses.now ≤ length out.old }
    ensures value { result ≡ at + 6 * length accesses.now }
    ensures after { out.new ≡ take at out.old ++ over (hex_of (access_bytes accesses.now)) (drop at out.old) }
    ensures fit { AccessesFit accesses.now }
{
    let mut end = at;
    for access in accesses {
        end = put(out, end, &three_bytes(*access));
    }
    end
}

// The bytes of an access: its mode, and its cell with the high byte first.
fn three_bytes(access: Access) -> [u8; 3]
    ensures bytes { result ≡ access_bytes (access ∷ []) }
    ensures fit { AccessesFit (access ∷ []) }
{
    let [high, low] = access.cell.to_be_bytes();
    [access.mode, high, low]
}

// Frames from lines.
ghost use Rattle.std.specs.Prelude.{◌≡◌, ◌+◌, ◌*◌, slice_index};
ghost use Rattle.std.specs.Option.{option_map};
ghost use Rattle.terms.specs.Accesses.{access};
ghost use Rattle.terms.specs.Refusals.{ok_as};
ghost use Rattle.frames.specs.Held.{content_of};
ghost use Rattle.frames.specs.Reading.{read_answer, said_in};
ghost use Rattle.frames.specs.RoundTrips.{ReadIsWritten};

use super::fault::LineFault;
use super::frame::{Frame, Room};
use super::hex::decode;
use super::kind::{Kind, LONGEST_FRAME};
use arrayvec::ArrayVec;
use terms::{Access, CELLS, MOST_ACCESSES};

// The frame that the characters of a line say; they end before the line feed.
pub fn read_line<'a>(line: &[u8], room: &'a mut Room) -> Result<Frame<'a>, LineFault>
    ensures answer { ok_as content_of result ≡ read_answer line.now }
    ensures written { ReadIsWritten (ok_as content_of result) line.now }
{
    if line.len() % 2 == 1 {
        return Err(LineFault::OddCount(line.len()));
    }
    let Room { bytes, accesses } = room;
    let bytes = decode(line, bytes)?;
    let Some(first) = bytes.first() else {
        return Err(LineFault::Empty);
    };
    let kind = Kind::try_from(*first)?;
    let len = line.len() / 2;
    if len > LONGEST_FRAME {
        return Err(LineFault::WrongLength(len));
    }
    frame_of_kind(kind, bytes, accesses).ok_or(LineFault::WrongLength(len))
}

// The frame of this kind in a row of bytes, if they are as many as that kind has. Inlined, since an `Option` that is handed back
// in memory is stored in parts and loaded whole, and on a short line the wait for that tells.
#[inline(always)]
fn frame_of_kind<'a>(
    kind: Kind,
    bytes: &'a [u8],
    accesses: &'a mut ArrayVec<Access, MOST_ACCESSES>,
) -> Option<Frame<'a>>
    ensures { option_map content_of result ≡ said_in kind bytes.now }
{
    match (kind, bytes) {
        (Kind::Append, _) => append_in(bytes, accesses),
        (Kind::Assign, [_]) => Some(Frame::Assign),
        (Kind::BeginPark, [_, worker]) => Some(Frame::BeginPark { worker: *worker }),
        (Kind::ResumeFinish, [_, worker]) => Some(Frame::ResumeFinish { worker: *worker }),
        (Kind::Verdict, [_, high, low]) => Some(Frame::Verdict {
            number: u16::from_be_bytes([*high, *low]),
        }),
        (Kind::Tally, [_]) => Some(Frame::Tally),
        (Kind::SetUpResidue, [_, rule, n]) => Some(Frame::SetUpResidue { rule: *rule, n: *n }),
        (Kind::SetUpListed, [_, rule, n, table @ ..]) if table.len() == CELLS => {
            Some(Frame::SetUpListed {
                rule: *rule,
                n: *n,
                table,
            })
        }
        _ => None,
    }
}

// An append, if the row is as long as its count of accesses says. Inlined for the same reason.
#[inline(always)]
fn append_in<'a>(
    bytes: &'a [u8],
    accesses: &'a mut ArrayVec<Access, MOST_ACCESSES>,
) -> Option<Frame<'a>>
    ensures { option_map content_of result ≡ said_in Kind.Append bytes.now }
{
    let [_, high, low, count, fields @ ..] = bytes else {
        return None;
    };
    let count = usize::from(*count);
    if count > MOST_ACCESSES || fields.len() != 3 * count {
        return None;
    }
    let (triples, _) = fields.as_chunks::<3>();
    accesses.clear();
    for triple in triples {
        accesses.push(access_from(*triple));
    }
    Some(Frame::Append {
        snapshot: u16::from_be_bytes([*high, *low]),
        accesses: accesses.as_slice(),
    })
}

// The access in three bytes: its mode, and its cell with the high byte first. A function and no `From`: the bytes are the
// format's, and the access belongs to the crate below.
fn access_from(bytes: [u8; 3]) -> Access
    ensures { result ≡ access (slice_index bytes 0) (256 * slice_index bytes 1 + slice_index bytes 2) }
{
    let [mode, high, low] = bytes;
    Access {
        mode,
        cell: u16::from_be_bytes([high, low]),
    }
}

// The kinds of frames, each with its byte, and how long frames may be.
ghost use Rattle.std.specs.Prelude.{◌≡◌};
ghost use Rattle.frames.specs.Kinds.{byte_of, kind_from};

use super::fault::LineFault;
use terms::CELLS;

// The longest frame sets up a listed map: kind, rule, n and an entry for each cell.
pub const LONGEST_FRAME: usize = 3 + CELLS;

// The longest line has two digits for each byte of that frame, and a line feed.
pub const LONGEST_LINE: usize = 2 * LONGEST_FRAME + 1;

// What a frame asks for.
#[derive(Clone, Copy, Debug, PartialEq, Eq)]
pub enum Kind {
    Append,
    Assign,
    // Begin, then park.
    BeginPark,
    // Resume, then finish.
    ResumeFinish,
    Verdict,
    Tally,
    SetUpResidue,
    SetUpListed,
}

impl Kind {
    // Every kind, in the order of their bytes.
    pub const ALL: [Kind; 8] = [
        Kind::Append,
        Kind::Assign,
        Kind::BeginPark,
        Kind::ResumeFinish,
        Kind::Verdict,
        Kind::Tally,
        Kind::SetUpResidue,
        Kind::SetUpListed,
    ];
}

// The first byte of a frame of this kind.
impl From<Kind> for u8 {
    ghost from_gives = { λ kind byte. byte ≡ byte_of kind };

    fn from(kind: Kind) -> u8 {
        match kind {
            Kind::Append => 0x01,
            Kind::Assign => 0x02,
            Kind::BeginPark => 0x03,
            Kind::ResumeFinish => 0x04,
            Kind::Verdict => 0x05,
            Kind::Tally => 0x06,
            Kind::SetUpResidue => 0x10,
            Kind::SetUpListed => 0x11,
        }
    }
}

impl TryFrom<u8> for Kind {
    type Error = LineFault;

    ghost try_from_gives = { λ byte kind. kind ≡ kind_from byte };

    fn try_from(byte: u8) -> Result<Kind, LineFault> {
        match byte {
            0x01 => Ok(Kind::Append),
            0x02 => Ok(Kind::Assign),
            0x03 => Ok(Kind::BeginPark),
            0x04 => Ok(Kind::ResumeFinish),
            0x05 => Ok(Kind::Verdict),
            0x06 => Ok(Kind::Tally),
            0x10 => Ok(Kind::SetUpResidue),
            0x11 => Ok(Kind::SetUpListed),
            _ => Err(LineFault::UnknownKind(byte)),
        }
    }
}

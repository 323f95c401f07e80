// Why a line is not read, and why a frame is not written.
ghost use Rattle.std.specs.Prelude.{◌≡◌, [], ◌∷◌};
ghost use Rattle.frames.specs.Faults.{line_refusal, write_refusal};

// The line is only looked at, so it stays as it was.
#[derive(Clone, Copy, Debug, PartialEq, Eq)]
pub enum LineFault {
    // Cause 1: an odd count of characters, this many.
    OddCount(usize),
    // Cause 2: the character at this place, the first such, is none of 0 to 9 and A to F.
    NotHexadecimal(usize),
    // Cause 3: the line is empty. It returns 256, which the table of refusals gives it and no kind has.
    Empty,
    // Cause 3: no frame has this kind.
    UnknownKind(u8),
    // Cause 4: a frame of the line's kind has not this many bytes.
    WrongLength(usize),
}

impl LineFault {
    // The number of the cause, as the table of refusals has it.
    pub fn cause(self) -> u8
        ensures { result ≡ (line_refusal self).cause }
    {
        match self {
            LineFault::OddCount(_) => 1,
            LineFault::NotHexadecimal(_) => 2,
            LineFault::Empty | LineFault::UnknownKind(_) => 3,
            LineFault::WrongLength(_) => 4,
        }
    }

    // The value that comes back with the cause.
    pub fn returned(self) -> usize
        ensures { result ∷ [] ≡ (line_refusal self).returned }
    {
        match self {
            LineFault::OddCount(characters) => characters,
            LineFault::NotHexadecimal(place) => place,
            LineFault::Empty => 256,
            LineFault::UnknownKind(kind) => usize::from(kind),
            LineFault::WrongLength(bytes) => bytes,
        }
    }
}

// The buffer stays as it was.
#[derive(Clone, Copy, Debug, PartialEq, Eq)]
pub enum WriteFault {
    // Cause 9: a table has 1,024 bytes, and not this many.
    TableLength(usize),
    // Cause 11: a frame has at most 8 accesses, and not this many.
    TooManyAccesses(usize),
    // Cause 26: the line and its line feed have this many characters, more than the buffer.
    ShortBuffer(usize),
}

// Its own methods and no trait beside LineFault's: no caller takes one fault for the other.
impl WriteFault {
    // The number of the cause, as the table of refusals has it.
    pub fn cause(self) -> u8
        ensures { result ≡ (write_refusal self).cause }
    {
        match self {
            WriteFault::TableLength(_) => 9,
            WriteFault::TooManyAccesses(_) => 11,
            WriteFault::ShortBuffer(_) => 26,
        }
    }

    // The value that comes back with the cause.
    pub fn returned(self) -> usize
        ensures { result ∷ [] ≡ (write_refusal self).returned }
    {
        match self {
            WriteFault::TableLength(bytes) => bytes,
            WriteFault::TooManyAccesses(count) => count,
            WriteFault::ShortBuffer(needed) => needed,
        }
    }
}

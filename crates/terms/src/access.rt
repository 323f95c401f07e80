// What an intention did to a setting.

// A mode is a number and no enum, since a rule may know up to four modes and a frame may bring any number.

// Reads the setting.
pub const READ: u8 = 0;

// Writes the setting.
pub const WRITE: u8 = 1;

// Moves a counter without reading it.
pub const ADD: u8 = 2;

// How many settings there are, each with its cell.
pub const CELLS: usize = 1024;

// The cell of the last setting; the first has cell 0.
pub const LAST_CELL: u16 = CELLS as u16 - 1;

// Cells are spread over at most this many partitions.
pub const MOST_PARTITIONS: u8 = 15;

// An intention has at most this many accesses.
pub const MOST_ACCESSES: usize = 8;

// A log holds at most this many intentions.
pub const LOG_LENGTH: usize = 512;

// One access of an intention: how it touched (mode) which setting (cell).
// A frame may hold any two numbers; which modes and cells are in range is for the certifier to say.
#[derive(Clone, Copy, Debug, Default, PartialEq, Eq)]
pub struct Access {
    pub mode: u8,
    pub cell: u16,
}

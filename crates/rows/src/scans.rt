// What a rule or a mark table does not know of accesses.
ghost use Rattle.std.specs.Prelude.{◌≡◌, nat_le, nat_lt};
ghost use Rattle.terms.specs.Failing.{first_failing};

use terms::{Access, LAST_CELL};

// The index of the first access whose mode is not below the count of modes.
pub fn first_unknown_mode(modes: u8, accesses: &[Access]) -> Option<usize>
    ensures { result ≡ first_failing (λ a. nat_lt a.mode modes) accesses.now }
{
    accesses.iter().position(|access| access.mode >= modes)
}

// The index of the first access whose cell is above 1,023.
pub fn first_unknown_cell(accesses: &[Access]) -> Option<usize>
    ensures { result ≡ first_failing (λ a. nat_le a.cell 1023) accesses.now }
{
    accesses.iter().position(|access| access.cell > LAST_CELL)
}

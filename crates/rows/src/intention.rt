// An intention: how old its view was, and what it accessed.
ghost use Rattle.std.specs.Prelude.{◌≡◌, ◌≤◌, true, take};
ghost use Rattle.model.specs.Finding.{all};
ghost use Rattle.rows.specs.Known.{known};

use terms::{Access, MOST_ACCESSES};

// The first accesses of the eight are the intention's; each has a mark. They stand in the intention itself, so a full log asks
// for no memory, and in an array, so an intention and its row may be copied.
// No impl Model: a row that held one could be handed on twice only if it was copied into another variable first.
#[derive(Clone, Copy)]
pub struct Intention {
    pub(crate) snapshot: u16,
    pub(crate) count: u8,
    pub(crate) accesses: [Access; MOST_ACCESSES],
    ghost some: { 1 ≤ count },
    ghost few: { count ≤ 8 },
    ghost marked: { all known (take count accesses) ≡ true },
}

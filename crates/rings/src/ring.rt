// Push at the back, find the oldest, drop the oldest, count.
// A row is lent, with its places beside it: whoever keeps a row keeps it where it suits, and its entries may be of any type.
// Each function takes the row, since its contract speaks of the entries.
ghost use Rattle.std.specs.Prelude.{◌≡◌, ◌<◌, ◌≤◌, [], ◌∷◌, ◌++◌, length, drop, is_ok, if◌then◌else◌, MatchOption, OnErr, nat_lt};
ghost use Rattle.rings.specs.Rings.{held, IsOldestAt};

use super::places::{CAPACITY, Places};

// The ring has 16 entries, and stays as it was.
#[derive(Clone, Copy, Debug, PartialEq, Eq)]
pub struct Full;

// Puts an entry behind all others, if there is room.
pub fn push<E: Copy>(row: &mut [E; CAPACITY], places: &mut Places, entry: E) -> Result<(), Full>
    ensures answer { is_ok result ≡ nat_lt (length (held row.old places.old)) 16 }
    ensures after { held row.new places.new ≡ (if is_ok result then held row.old places.old ++ entry ∷ [] else held row.old places.old) }
    ensures kept { OnErr result ((row.new ≡ row.old) × (places.new ≡ places.old)) }
{
    if places.len == CAPACITY {
        return Err(Full);
    }
    row[(places.first + places.len) % CAPACITY] = entry;
    places.len += 1;
    Ok(())
}

// The place of the oldest entry in the row; none in an empty ring.
pub fn oldest_place<E>(row: &[E; CAPACITY], places: Places) -> Option<usize>
    ensures { MatchOption result (held row.now places ≡ []) (λ place. IsOldestAt row.now places place) }
{
    if places.len == 0 {
        return None;
    }
    Some(places.first)
}

// Lets the oldest entry go; an empty ring stays empty.
pub fn drop_oldest<E>(row: &[E; CAPACITY], places: &mut Places)
    ensures { held row.now places.new ≡ drop 1 (held row.now places.old) }
{
    if places.len > 0 {
        places.first = (places.first + 1) % CAPACITY;
        places.len -= 1;
    }
}

// How many entries the ring has.
pub fn held_count<E>(row: &[E; CAPACITY], places: Places) -> usize
    ensures value { result ≡ length (held row.now places) }
    ensures bound { result ≤ 16 }
{
    let count = places.len;
    count
}

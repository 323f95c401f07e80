// The counts of a certifier.

#[derive(Clone, Copy, Debug, PartialEq, Eq)]
pub struct Tally {
    // Accepted calls of append, assign and finish.
    pub appended: u16,
    pub assigned: u16,
    pub finished: u16,
    // Workers that are held or parked.
    pub open: u8,
    // Orders that no worker is open on.
    pub queued: u16,
}

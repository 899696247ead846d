//! What the machine of a live host's station's bodies waits for next.

use ws_code::Address;

/// What a machine waits for, with what it has of a part so far.
#[derive(Drop)]
pub(crate) enum Waits {
    HeadRow,
    HeadColumn(u8),
    /// The key of an answer, or what tells another body from it.
    HeadLast(Address),
    /// The next byte of a reply's front, after so many; it is another reply's or the first's.
    Front { again: bool, count: u8 },
    /// The command after a Restore Screen.
    SavedCode,
    /// A byte, or the order of an address.
    Part,
    AtRow,
    AtColumn(u8),
    /// A byte of a reply, after which so many more stand.
    ReplyByte(u8),
    /// What the machine of a saved screen waits for.
    InElement,
}

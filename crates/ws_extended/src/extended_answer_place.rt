//! Where a part of what a live host's station sends stands, by the parts that may come there.

use crate::ExtendedPlace;

/// Where a part of what a live host's station sends stands. It says which parts may stand there.
#[derive(Clone, Copy, Debug, PartialEq, Eq)]
pub enum ExtendedAnswerPlace {
    /// What begins a body.
    Beginning,
    /// Bytes and addresses of fields.
    Fields,
    /// A byte of a reply, after which so many more stand.
    InReply(u8),
    /// After a reply: another one.
    Replied,
    /// The elements of a saved screen that may stand there.
    InSaved(ExtendedPlace),
}

//! What a live host's station sends is made of (SC30-3533, commands).

use crate::ExtendedElement;
use ws_code::Address;
use ws_stream::AnswerPart;

/// A part of what a live host's station sends: of an answer of the profile, or of what is told at once (SC30-3533,
/// commands).
#[derive(Debug, Drop, PartialEq, Eq)]
pub enum ExtendedAnswerPart {
    /// A part of an answer to a read. Bytes and addresses stand after `AtOnce` too.
    Profile(AnswerPart),
    /// The first eight bytes of a reply to a 5250 Query.
    QueryReply,
    /// A byte of such a reply, after which so many more stand.
    Reply { left: u8, byte: u8 },
    /// The beginning of a saved screen: Restore Screen and Clear Unit.
    Saved,
    /// An element of a saved screen.
    Of(ExtendedElement),
    /// The cursor, and no key: what follows is told of the screen at once.
    AtOnce(Address),
}

//! What a live host's body is made of (SC30-3533, commands).

use crate::{Ask, Roll};
use ws_stream::Element;

/// An element of a live host's body: one of the profile, or one of eight commands beside it (SC30-3533, commands).
#[derive(Debug, Drop, PartialEq, Eq)]
pub enum ExtendedElement {
    /// A command, an order or a cell's byte of the profile.
    Profile(Element),
    /// An Insert Cursor or a cell's byte of an error's text.
    Text(Element),
    /// Restore Screen, after which stands what was sent at a Save Screen.
    RestoreScreen,
    /// Roll.
    Roll(Roll),
    /// Write Error Code, after which stands its text.
    WriteError,
    /// A command that asks at once.
    Asks(Ask),
}

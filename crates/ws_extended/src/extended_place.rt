//! Where an element of a live host's body stands, by the elements that may come there.

use crate::Ask;
use ws_stream::Place;

/// Where an element of a live host's body stands. It says which elements may stand there.
#[derive(Clone, Copy, Debug, PartialEq, Eq)]
pub enum ExtendedPlace {
    /// Those of the profile that may stand there, and all commands.
    InProfile(Place),
    /// After Write Error Code or its text: text, and all commands.
    ErrorText,
    /// After a command that asks at once: others that do.
    Asked(Ask),
}

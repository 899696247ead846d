//! The commands that a station answers at once, without a key (SC30-3533, commands).

ghost use Rattle.std.specs.Prelude.{◌≡◌};

use ws_code::Reason;

/// A command that asks at once, without a key: it is answered by the screen that its record leaves (SC30-3533,
/// commands).
#[derive(Clone, Copy, Debug, PartialEq, Eq)]
pub enum Ask {
    /// 5250 Query: which display this is.
    Query,
    /// Save Screen: what makes any screen equal to this one.
    SaveScreen,
    /// Read Screen: the cursor and all cells.
    ReadScreen,
    /// Read Immediate: what Read Input Fields asks for.
    ReadImmediate,
    /// Read Modified Immediate Alternate: what Read MDT Fields Alternate asks for.
    ReadImmediateAlternate,
}

impl Ask {
    ghost use Rattle.ws_extended.specs.ExtendedReasons.{ask_reason};

    /// Why nothing but what asks stands after it in a body (own choice), and why a record that asked before it isn't
    /// answered.
    pub fn reason(self) -> Reason
        ensures { result ≡ ask_reason self }
    {
        match self {
            Ask::Query => Reason::StructuredField,
            Ask::SaveScreen => Reason::SaveRestore,
            Ask::ReadScreen => Reason::ReadScreen,
            Ask::ReadImmediate | Ask::ReadImmediateAlternate => Reason::ReadImmediate,
        }
    }
}

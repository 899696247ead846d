//! Where an element of a host's body stands, by the elements that may come there.

/// Which elements may stand where one does.
#[derive(Clone, Copy, Debug, PartialEq, Eq)]
pub enum Place {
    /// Commands alone: at the beginning, and after a command that opens no write.
    CommandsOnly,
    /// Commands, orders and data: after a Write to Display, an order or data.
    Anything,
}

//! What an extended station writes at once.
use ws_nego::Reply;

/// What is written at a byte. It is short: what a record has the display write is kept there.
#[derive(Drop)]
pub enum ExtendedReply {
    /// At a Telnet command.
    Bytes(Reply),
    /// At a record.
    Kept,
}

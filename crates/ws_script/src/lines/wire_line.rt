//! A line of a script for a host that works on the connection itself.

use ws_code::List;

/// A line of a script for a host that works on the connection itself, beside the host's end.
#[derive(Drop)]
pub enum WireLine {
    /// These bytes are written as they are.
    Raw(List<u8>),
    /// So many milliseconds go by, in which nothing is read or written.
    Pause(u32),
    /// The connection is closed, and the session is over.
    Close,
}

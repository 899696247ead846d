//! What a live session asks of the program's runtime.

use std::fs::File;
use std::io::IsTerminal;
use std::net::{Net, TcpListener, TcpStream};
use std::rt::{Files, Runtime};

/// A runtime with files and sockets, of which it can be asked whether standard input is a terminal.
pub(crate) trait LiveRuntime: Runtime
    + AllocGlobal
    + Files<File = File>
    + Net<Listener = TcpListener, Stream = TcpStream> {
    /// Whether standard input is a terminal.
    fn is_at_terminal(&self) -> bool;
}

impl<R> LiveRuntime for R
where
    R: Runtime + AllocGlobal + Files<File = File> + Net<Listener = TcpListener, Stream = TcpStream>,
    R::Reader: IsTerminal,
{
    fn is_at_terminal(&self) -> bool {
        self.reader().is_terminal()
    }
}

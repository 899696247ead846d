//! `play` over a TCP connection of this machine.
ghost use Rattle.std.specs.Prelude.{◌≡◌};
ghost use Rattle.ws_network.specs.TcpFaults.{tcp_fault, tcp_run_fault};

use std::alloc::Global;
use std::io;
use std::net::{Ipv4Addr, Net, SocketAddr, TcpListener, TcpStream};
use thiserror::Error;
use ws_code::{Fault, ReadSource, WriteSink};
use ws_nego::TerminalType;
use ws_script::RunFault;
use ws_session::{Line, Move, Report, World};

/// Why no session is played over a connection. Each has one line.
#[derive(Clone, Copy, Debug, PartialEq, Eq, Drop, Error)]
pub enum TcpFault {
    /// Listening, connecting or accepting failed.
    #[error("no connection")]
    NoConnection,
    /// A write into the connection failed, or took no byte.
    #[error("cannot write")]
    Write,
    /// A read from the connection failed, or it ended too early.
    #[error("cannot read")]
    Read,
    /// A growth was refused.
    #[error("memory")]
    Memory,
}

impl From<Fault> for TcpFault {
    ghost from_gives = { λ fault told. told ≡ tcp_fault fault };

    // Of a session over a connection, which has no other faults.
    fn from(fault: Fault) -> Self {
        match fault {
            Fault::Memory => TcpFault::Memory,
            Fault::Write => TcpFault::Write,
            Fault::Read | Fault::Truncated { .. } | Fault::Refused { .. } | Fault::Failed => {
                TcpFault::Read
            }
        }
    }
}

impl From<TcpFault> for RunFault {
    ghost from_gives = { λ fault told. told ≡ tcp_run_fault fault };

    fn from(fault: TcpFault) -> Self {
        match fault {
            TcpFault::NoConnection => RunFault::NoConnection,
            TcpFault::Write => RunFault::Write,
            TcpFault::Read => RunFault::Read,
            TcpFault::Memory => RunFault::Memory,
        }
    }
}

/// Plays a session whose bytes go over one TCP connection on 127.0.0.1: the host end listens and accepts, and the
/// station connects. Bytes wait in memory until a move delivers them. Then they go in pieces of at most 4,096, each of
/// which is written at the one end and read at the other before the next, so that one thread plays both ends. What a
/// connection does can't be proved. `World::run_carried` says what a session over two lines comes to.
///
/// # Errors
///
/// `NoConnection` where listening, connecting or accepting failed, and then nothing was played. `Write` where a write
/// failed, `Read` where a read failed or the connection ended before a piece was whole. `Memory` where a growth was
/// refused.
pub fn play_tcp<R: Net<Listener = TcpListener, Stream = TcpStream>>(
    rt: &R,
    alloc: Global,
    terminal: TerminalType,
    moves: &[Move],
) -> Result<Report, TcpFault> {
    let (host, station) = match connect(rt) {
        Ok(ends) => ends,
        Err(_) => return Err(TcpFault::NoConnection),
    };
    let mut down = Line {
        sink: WriteSink::new(&host),
        source: ReadSource::new(&station),
    };
    let mut up = Line {
        sink: WriteSink::new(&station),
        source: ReadSource::new(&host),
    };
    Ok(World::run_carried(alloc, terminal, moves, &mut down, &mut up)?)
}

// A connection of this program with itself: the end that accepts, and the end that connects. What is written goes at
// once, also where the piece before it isn't acknowledged.
fn connect<R: Net<Listener = TcpListener, Stream = TcpStream>>(
    rt: &R,
) -> io::Result<(TcpStream, TcpStream)> {
    let listener = TcpListener::bind(rt, SocketAddr::from((Ipv4Addr::LOCALHOST, 0)))?;
    let connecting = TcpStream::connect(rt, listener.local_addr()?)?;
    let (accepting, peer) = listener.accept()?;
    // Another program may have connected first.
    if peer != connecting.local_addr()? {
        return Err(io::Error::from(io::ErrorKind::ConnectionRefused));
    }
    accepting.set_nodelay(true)?;
    connecting.set_nodelay(true)?;
    Ok((accepting, connecting))
}

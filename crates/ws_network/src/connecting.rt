//! Connecting to a name's addresses, which share the time of a wait.
ghost use Rattle.std.specs.Iterator.{IsFinite};
ghost use Rattle.std.specs.Prelude.{◌≡◌};
ghost use Rattle.std_io.specs.IoError.{error_kind};
ghost use Rattle.ws_script.specs.asked.RunFaults.{unconnected_by};
ghost use Rattle.ws_script.specs.declared.asked.fault.ToldFault.TheVariants as told;

use crate::timer::Timer;
use crate::turns::{by_turns, share};
use std::alloc::{AllocError, Global};
use std::io;
use std::net::{Net, SocketAddr, TcpStream, ToSocketAddrs};
use std::time::Clock;
use ws_script::{HostPort, RunFault, ToldFault, Unconnected, no_connection};

/// A connection to a host.
///
/// # Errors
///
/// `Connection` with the host and why there is none: its name isn't found, the time is over before an address is tried,
/// or the cause of the last one where none connects; else as `settled`. `Memory` where a growth was refused.
pub(crate) fn connect_to<R: Clock + Net<Stream = TcpStream>>(
    rt: &R,
    alloc: Global,
    to: HostPort<'_>,
    timer: &Timer<'_, R>,
) -> Result<TcpStream, ToldFault> {
    match try_addresses(rt, alloc, to, timer) {
        Err(ToldFault::NoConnection(why)) => Err(unconnected(alloc, to, why)),
        outcome => outcome,
    }
}

/// A host and its port as text, an address of IPv6 in brackets.
///
/// # Errors
///
/// `AllocError` where a growth was refused.
pub(crate) fn host_text(alloc: Global, to: HostPort<'_>) -> Result<String, AllocError> {
    let HostPort { host, port } = to;
    if host.contains(':') {
        format!(in alloc; "[{host}]:{port}")
    } else {
        format!(in alloc; "{host}:{port}")
    }
}

// That there is no connection to a host.
fn unconnected(alloc: Global, to: HostPort<'_>, why: Unconnected) -> ToldFault {
    match unconnected_text(alloc, to, why) {
        Ok(text) => ToldFault::Connection(text),
        Err(_) => ToldFault::NoConnection(why),
    }
}

fn unconnected_text(
    alloc: Global,
    to: HostPort<'_>,
    why: Unconnected,
) -> Result<String, AllocError> {
    let host = host_text(alloc, to)?;
    format!(in alloc; "no connection to {host}: {why}")
}

// Tries the addresses of a host one after another, for as long as the wait lasts. Each has its part of what is left of
// it then, so that one that doesn't answer leaves time for the others.
fn try_addresses<R: Clock + Net<Stream = TcpStream>>(
    rt: &R,
    alloc: Global,
    to: HostPort<'_>,
    timer: &Timer<'_, R>,
) -> Result<TcpStream, ToldFault> {
    let Ok(found) = (to.host, to.port).to_socket_addrs(rt) else {
        return Err(ToldFault::NoConnection(Unconnected::UnknownName));
    };
    let Ok(addresses) = in_order(alloc, found) else {
        return Err(ToldFault::Run(RunFault::Memory));
    };
    let mut why = Unconnected::UnknownName;
    for at in 0..addresses.len() {
        let Some(left) = timer.left() else {
            return Err(ToldFault::NoConnection(Unconnected::Late));
        };
        let part = share(left, addresses.len() - at);
        match TcpStream::connect_timeout(rt, &addresses[at], part) {
            Ok(stream) => return settled(stream),
            Err(error) => why = no_connection(error.kind()),
        }
    }
    Err(ToldFault::NoConnection(why))
}

/// A connection on which small pieces are sent at once.
///
/// # Errors
///
/// `NoConnection` where it can't be set so, with the cause by the kind of the error.
pub(crate) fn settled(stream: TcpStream) -> Result<TcpStream, ToldFault> {
    stream.set_nodelay(true).map_err(failed)?;
    Ok(stream)
}

/// No connection, since a call failed by this error.
pub(crate) fn failed(error: io::Error) -> ToldFault
    ensures { result ≡ told.NoConnection (unconnected_by (error_kind error)) }
{
    ToldFault::NoConnection(no_connection(error.kind()))
}

// The addresses that a name has, in the order in which they are tried.
fn in_order<I: Iterator<Item = SocketAddr> + Drop>(
    alloc: Global,
    found: I,
) -> Result<Vec<SocketAddr>, AllocError>
    requires { I.can_next found × IsFinite (I.remaining found) }
{
    let mut addresses = Vec::new(alloc);
    for address in found {
        addresses.push(address)?;
    }
    by_turns(alloc, addresses.as_slice())
}

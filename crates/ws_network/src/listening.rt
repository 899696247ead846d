//! A listener at which stations are taken.
ghost use Rattle.std.specs.Prelude.{◌≡◌, [], OnOk};
ghost use Rattle.std.specs.declared.net.socket_addr.SocketAddr.{SocketAddr as AnAddress};
ghost use Rattle.ws_code.specs.Device.{WentOut};
ghost use Rattle.ws_network.specs.Listening.{listening_line, unbound_by};

use crate::connecting::{failed, settled};
use crate::live_runtime::LiveRuntime;
use std::io::ErrorKind;
use std::net::{TcpListener, TcpStream};
use ws_code::Sink;
use ws_live::hand_on;
use ws_printing::BufferedSink;
use ws_script::{HostPort, RunFault, ToldFault, Unconnected, no_connection};
use ws_text::{Output, Text};

/// Listens at an address, and tells that it does.
///
/// # Errors
///
/// `NoConnection` where nothing can listen there, or the address can't be told, with the cause by the kind of the
/// error. `Memory` where a growth was refused; `Write` where the sink failed.
pub(crate) fn listen<R: LiveRuntime, O: Sink>(
    rt: &R,
    at: HostPort<'_>,
    out: &mut BufferedSink<O>,
) -> Result<TcpListener, ToldFault>
    requires empty { out.old.held ≡ [] }
    ensures held { out.new.held ≡ [] }
    ensures told { OnOk result ((address : AnAddress)
        × WentOut O.writer out.old.sink out.new.sink (listening_line address)) }
{
    let listener = match TcpListener::bind(rt, (at.host, at.port)) {
        Ok(listener) => listener,
        Err(error) => return Err(ToldFault::NoConnection(unbound(error.kind()))),
    };
    let address = listener.local_addr().map_err(failed)?;
    let Ok(line) = format!(in rt.alloc(); "listening {address}\n") else {
        return Err(ToldFault::Run(RunFault::Memory));
    };
    tell(&line.as_str(), out)?;
    Ok(listener)
}

// Why nothing listens at an address, by the kind of the error.
fn unbound(kind: ErrorKind) -> Unconnected
    ensures { result ≡ unbound_by kind }
{
    match kind {
        ErrorKind::Uncategorized => Unconnected::UnknownName,
        _ => no_connection(kind),
    }
}

/// Takes the next station.
///
/// # Errors
///
/// `NoConnection` where none can be taken, with the cause by the kind of the error; also as `settled`.
pub(crate) fn take_next(listener: &TcpListener) -> Result<TcpStream, ToldFault> {
    let (stream, _) = listener.accept().map_err(failed)?;
    settled(stream)
}

/// Prints a text, and hands it on.
///
/// # Errors
///
/// `Write` where the sink failed.
pub(crate) fn tell<T: Text, O: Sink>(text: &T, out: &mut BufferedSink<O>) -> Result<(), ToldFault>
    requires empty { out.old.held ≡ [] }
    ensures held { out.new.held ≡ [] }
    ensures told { OnOk result
        (WentOut O.writer out.old.sink out.new.sink (T.text text.now)) }
{
    let output = text.put_to(out, Output::Open);
    match hand_on(out, output) {
        Output::Open => Ok(()),
        Output::Failed => Err(ToldFault::Run(RunFault::Write)),
    }
}

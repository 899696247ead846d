//! Plays over a connection: told as those in one place, and where the connection fails.

use crate::play_rows::{PLAY_BOB, PLAYED};
use crate::{holds, same, same_at, same_bytes, says};
use std::alloc::Global;
use std::io;
use std::net::{Net, Shutdown, SocketAddr, TcpListener, TcpStream};
use std::process::Abort;
use ws_code::{Fault, VecSink};
use ws_nego::TerminalType;
use ws_network::{TcpFault, play_tcp};
use ws_printing::play_to;
use ws_script::{RunFault, read_script};
use ws_session::{Move, Report, World};

const TERMINAL: TerminalType = TerminalType::Ibm3179Model2;

// More bytes in flight than go in one piece: so many empty records, and then one that turns the light on.
fn many_records(rt: &impl Abort, alloc: Global) -> String {
    let mut script = String::new(alloc);
    script.push_str("settle\n").expect(rt, "memory");
    for _ in 0..900 {
        script.push_str("send 1\n").expect(rt, "memory");
    }
    script.push_str("send 11\nsettle\n").expect(rt, "memory");
    script
}

fn moves_of<R: Abort + AllocGlobal>(rt: &R, script: &str) -> Vec<Move> {
    read_script(rt.alloc(), script.as_bytes()).expect(rt, "a script")
}

// What is written of a report with its screen, and that no end refuses.
fn told<R: Abort + AllocGlobal>(rt: &R, report: &Report) -> VecSink {
    let mut sink = VecSink::new(rt.alloc());
    same(rt, play_to(report, true, &mut sink), Ok(true));
    sink
}

// `tcp-plays-alike`: each row of `play`, and a session of many records.
#[test]
fn tcp_plays_alike(rt: HostRuntime) {
    for row in &PLAYED {
        expect_alike(&rt, row.1);
    }
    let many = many_records(&rt, rt.alloc());
    expect_alike(&rt, many.as_str());
}

// What is played over a connection and in one place is told alike, and crosses alike.
fn expect_alike<R: Net<Listener = TcpListener, Stream = TcpStream> + Abort + AllocGlobal>(
    rt: &R,
    script: &str,
) {
    let moves = moves_of(rt, script);
    let by_tcp = play_tcp(rt, rt.alloc(), TERMINAL, moves.as_slice()).expect(rt, script);
    let by_run = World::run(rt.alloc(), TERMINAL, moves.as_slice()).expect(rt, script);
    let lines = told(rt, &by_run);
    same_at(rt, script, told(rt, &by_tcp).as_slice(), lines.as_slice());
    let to_station = by_run.to_station.as_slice();
    same_bytes(rt, by_tcp.to_station.as_slice(), to_station);
    same_bytes(rt, by_tcp.to_host.as_slice(), by_run.to_host.as_slice());
}

// `tcp-without-memory`: what is answered may be want of memory, and then it is said. The connection itself allocates
// nothing, so that want is never told as no connection.
#[test]
fn tcp_without_memory(rt: HostRuntime) {
    let (name, script, _, lines) = PLAY_BOB;
    match read_script(rt.alloc(), script.as_bytes()) {
        Err(fault) => same(&rt, RunFault::from(fault), RunFault::Memory),
        Ok(moves) => match play_tcp(&rt, rt.alloc(), TERMINAL, moves.as_slice()) {
            Err(fault) => same_at(&rt, name, fault, TcpFault::Memory),
            Ok(report) => {
                let mut sink = VecSink::new(rt.alloc());
                match play_to(&report, false, &mut sink) {
                    Err(fault) => same(&rt, fault, Fault::Write),
                    Ok(all_well) => {
                        holds(&rt, all_well);
                        same_bytes(&rt, sink.as_slice(), lines.as_bytes());
                    }
                }
            }
        },
    }
}

// Where a connection fails.
#[derive(Clone, Copy, Debug, PartialEq, Eq)]
enum Failing {
    Listening,
    Connecting,
    // Another program has connected first.
    Accepting,
    Writing,
    Reading,
}

// A runtime whose connections fail.
#[derive(Drop)]
struct FailingNet<'a, R> {
    rt: &'a R,
    at: Failing,
}

impl<R: Net<Listener = TcpListener, Stream = TcpStream>> Net for FailingNet<'_, R> {
    type Stream = TcpStream;

    type Listener = TcpListener;

    fn bind(&self, addr: SocketAddr) -> io::Result<TcpListener> {
        if self.at == Failing::Listening {
            return Err(io::Error::from(io::ErrorKind::PermissionDenied));
        }
        self.rt.bind(addr)
    }

    fn connect(&self, addr: SocketAddr) -> io::Result<TcpStream> {
        let stream = self.rt.connect(addr)?;
        match self.at {
            Failing::Listening | Failing::Connecting => {
                Err(io::Error::from(io::ErrorKind::ConnectionRefused))
            }
            Failing::Accepting => self.rt.connect(addr),
            Failing::Writing => {
                stream.shutdown(Shutdown::Write)?;
                Ok(stream)
            }
            Failing::Reading => {
                stream.shutdown(Shutdown::Both)?;
                Ok(stream)
            }
        }
    }
}

// A session over a connection that fails ends with this fault, which is told by this line, as the program's too.
fn expect_failing<R: Net<Listener = TcpListener, Stream = TcpStream> + Abort + AllocGlobal>(
    rt: &R,
    moves: &[Move],
    at: Failing,
    wanted: TcpFault,
    line: &str,
) {
    let net = FailingNet { rt, at };
    let played = play_tcp(&net, rt.alloc(), TERMINAL, moves);
    same_at(rt, at, played.err(), Some(wanted));
    says(rt, rt.alloc(), wanted, line);
    says(rt, rt.alloc(), RunFault::from(wanted), line);
}

const FAILING: [(Failing, TcpFault, &str); 5] = [
    (Failing::Listening, TcpFault::NoConnection, "no connection"),
    (Failing::Connecting, TcpFault::NoConnection, "no connection"),
    (Failing::Accepting, TcpFault::NoConnection, "no connection"),
    (Failing::Writing, TcpFault::Write, "cannot write"),
    (Failing::Reading, TcpFault::Read, "cannot read"),
];

#[test]
fn failing_connections(rt: HostRuntime) {
    let moves = moves_of(&rt, PLAY_BOB.1);
    for (at, wanted, line) in &FAILING {
        expect_failing(&rt, moves.as_slice(), *at, *wanted, line);
    }
    says(&rt, rt.alloc(), TcpFault::from(Fault::Memory), "memory");
}

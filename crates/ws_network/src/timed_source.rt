//! What is read from a connection, within the time of a wait.
ghost use Rattle.std.specs.Io.{ReadsAtMost};
ghost use Rattle.std.specs.Prelude.{◌≡◌, Some, Ok, IsErr, IfOk, IfErr};
ghost use Rattle.std_io.specs.IoError.{error_kind};
ghost use Rattle.ws_code.specs.Device.{one_more};
ghost use Rattle.ws_network.specs.Times as Spec;

use crate::recording::{PieceSender, Recording};
use crate::timer::{Timer, no_time};
use std::fs::File;
use std::io;
use std::io::{ErrorKind, Read};
use std::marker::Model;
use std::net::{Shutdown, SocketAddr, TcpStream};
use std::os::fd::{AsRawFd, RawFd};
use std::rt::{Files, Runtime};
use std::time::Duration;
use ws_code::{DeviceFailed, Source};

// How many seconds the end of a connection may take.
const LINGER: u64 = 1;

/// Reads from a connection for as long as the wait lasts, and has what it reads recorded.
#[derive(Drop)]
pub(crate) struct TimedSource<'a, C> {
    stream: &'a TcpStream,
    timer: &'a Timer<'a, C>,
    recording: &'a Recording<'a, C>,
    sender: PieceSender,
    // The address of the other side, where it is known.
    peer: Option<SocketAddr>,
    failures: u64,
    // Of what kind the error of the last read that failed was, and whether the time that was over then was that in which
    // nothing had come.
    failure: Option<ErrorKind>,
    rested: bool,
}

impl<'a, C> Model for TimedSource<'a, C> {
    ghost use Rattle.ws_network.specs.Times.{ConnectionReads};

    ghost Value = { ConnectionReads };

    ghost view = { λ s. record { failures = s.failures; failure = s.failure; rested = s.rested } };
}

impl<'a, C> TimedSource<'a, C> {
    /// No read has failed. What is read comes from this sender.
    pub(crate) fn new(
        stream: &'a TcpStream,
        timer: &'a Timer<'a, C>,
        recording: &'a Recording<'a, C>,
        sender: PieceSender,
    ) -> Self
        ensures { result ≡ Spec.no_reads }
    {
        TimedSource {
            stream,
            timer,
            recording,
            sender,
            peer: stream.peer_addr().ok(),
            failures: 0,
            failure: None,
            rested: false,
        }
    }

    /// Whether the last read that failed did so for want of time.
    pub(crate) fn is_late(&self) -> bool
        ensures { result ≡ Spec.was_late self.now }
    {
        self.failure.is_some_and(is_want_of_time)
    }

    /// Whether the time that was over at the last read that failed was that in which nothing had come.
    pub(crate) fn is_at_rest(&self) -> bool
        ensures { result ≡ self.now.rested }
    {
        self.rested
    }
}

impl<'a, C: Runtime + AllocGlobal + Files<File = File>> TimedSource<'a, C> {
    // Reads once.
    fn read_once(&self, into: &mut [u8]) -> io::Result<usize>
        ensures { ReadsAtMost result into.new }
    {
        let Some(left) = self.timer.left_to_read() else {
            return Err(no_time());
        };
        if self.timer.is_at_once() {
            return self.read_at_once(into);
        }
        self.stream.set_read_timeout(Some(left))?;
        let mut stream = self.stream;
        stream.read(into)
    }

    // Reads what has come. The connection waits again behind it.
    fn read_at_once(&self, into: &mut [u8]) -> io::Result<usize>
        ensures { ReadsAtMost result into.new }
    {
        self.stream.set_nonblocking(true)?;
        let mut stream = self.stream;
        let outcome = stream.read(into);
        self.stream.set_nonblocking(false)?;
        outcome
    }

    // Reads, and again where a signal came.
    fn read_in_time(&self, into: &mut [u8]) -> io::Result<usize>
        ensures { ReadsAtMost result into.new }
    {
        for _ in 0..u32::MAX {
            match self.read_once(into) {
                Err(error) if error.kind() == ErrorKind::Interrupted => {}
                outcome => return outcome,
            }
        }
        Err(no_time())
    }

    // Reads a piece, and has it recorded.
    fn read_piece(&self, into: &mut [u8]) -> io::Result<usize>
        ensures { ReadsAtMost result into.new }
    {
        let given = self.read_in_time(into)?;
        self.timer.note_bytes();
        self.recording.keep(self.sender, &into[..given])?;
        Ok(given)
    }

    // Keeps why a read failed.
    fn note(&mut self, outcome: io::Result<usize>) -> Result<usize, DeviceFailed>
        ensures ok { IfOk outcome (λ given. (result ≡ Ok given) × (self.new ≡ self.old)) }
        ensures err { IfErr outcome (λ error. IsErr result
            × (self.new.failures ≡ one_more self.old.failures)
            × (self.new.failure ≡ Some (error_kind error))) }
    {
        match outcome {
            Ok(given) => Ok(given),
            Err(error) => {
                if is_reset(error.kind()) {
                    self.recording.note_reset(self.peer);
                }
                self.failure = Some(error.kind());
                self.rested = self.timer.is_at_rest();
                self.failures = self.failures.saturating_add(1);
                Err(DeviceFailed)
            }
        }
    }
}

impl<'a, C: Runtime + AllocGlobal + Files<File = File>> Source for TimedSource<'a, C> {
    ghost reader = { Spec.timed_reader };

    fn read(&mut self, into: &mut [u8]) -> Result<usize, DeviceFailed> {
        let outcome = self.read_piece(into);
        self.note(outcome)
    }
}

impl<C> AsRawFd for TimedSource<'_, C> {
    fn as_raw_fd(&self) -> RawFd {
        self.stream.as_raw_fd()
    }
}

// Whether an error of this kind says that the other side has reset the connection.
fn is_reset(kind: ErrorKind) -> bool {
    matches!(
        kind,
        ErrorKind::ConnectionReset | ErrorKind::ConnectionAborted
    )
}

// Whether an error of this kind says that a call took longer than its time.
fn is_want_of_time(kind: ErrorKind) -> bool
    ensures { result ≡ Spec.is_want_of_time kind }
{
    matches!(kind, ErrorKind::WouldBlock | ErrorKind::TimedOut)
}

/// Ends a connection in order: nothing more is written, and what the other side still sends is taken for a moment, so
/// that it isn't told of a fault.
pub(crate) fn close<R: Runtime + AllocGlobal + Files<File = File>>(
    rt: &R,
    stream: &TcpStream,
    recording: &Recording<'_, R>,
    sender: PieceSender,
) {
    if stream.shutdown(Shutdown::Write).is_err() {
        return;
    }
    let timer = Timer::new(rt, Duration::from_secs(LINGER));
    let mut rest = TimedSource::new(stream, &timer, recording, sender);
    let mut piece = [0u8; 4096];
    for _ in 0..u32::MAX {
        match rest.read(&mut piece) {
            Ok(0) | Err(_) => return,
            Ok(_) => {}
        }
    }
}

//! What is written to a connection, within the time for it.
ghost use Rattle.std.specs.Io.{WritesAtMost};
ghost use Rattle.std.specs.Prelude.{◌≡◌};
ghost use Rattle.ws_network.specs.Times as Spec;

use crate::recording::{PieceSender, Recording};
use crate::timer::{Timer, no_time};
use std::fs::File;
use std::io;
use std::io::{ErrorKind, Write};
use std::marker::Model;
use std::net::TcpStream;
use std::rt::{Files, Runtime};
use std::time::Instant;
use ws_code::{DeviceFailed, Sink};

/// Writes into a connection. The bytes of one text, in as many writes as it asks for, go out in the time of the wait in
/// which it is written, or in one of its own. What goes out is recorded.
#[derive(Drop)]
pub(crate) struct TimedSink<'a, C> {
    stream: &'a TcpStream,
    timer: &'a Timer<'a, C>,
    recording: &'a Recording<'a, C>,
    sender: PieceSender,
    failures: u64,
    // How many bytes of the text didn't go out yet, and when its time is over.
    unsent: usize,
    until: Option<Instant>,
}

impl<'a, C> Model for TimedSink<'a, C> {
    ghost use Rattle.ws_network.specs.Times.{ConnectionWrites};

    ghost Value = { ConnectionWrites };

    ghost view = { λ s. record { failures = s.failures } };
}

impl<'a, C: Runtime + AllocGlobal + Files<File = File>> TimedSink<'a, C> {
    /// No write has failed. What is written comes from this sender.
    pub(crate) fn new(
        stream: &'a TcpStream,
        timer: &'a Timer<'a, C>,
        recording: &'a Recording<'a, C>,
        sender: PieceSender,
    ) -> Self
        ensures { result ≡ Spec.no_writes }
    {
        TimedSink {
            stream,
            timer,
            recording,
            sender,
            failures: 0,
            unsent: 0,
            until: None,
        }
    }

    // Writes once.
    fn write_once(&self, bytes: &[u8]) -> io::Result<usize>
        ensures { WritesAtMost result bytes.now }
    {
        let Some(left) = self.timer.left_until(self.until) else {
            return Err(no_time());
        };
        self.stream.set_write_timeout(Some(left))?;
        let mut stream = self.stream;
        stream.write(bytes)
    }

    // Writes, and again where a signal came.
    fn write_in_time(&self, bytes: &[u8]) -> io::Result<usize>
        ensures { WritesAtMost result bytes.now }
    {
        for _ in 0..u32::MAX {
            match self.write_once(bytes) {
                Err(error) if error.kind() == ErrorKind::Interrupted => {}
                outcome => return outcome,
            }
        }
        Err(no_time())
    }

    // Writes a piece, and has it recorded.
    fn write_piece(&self, bytes: &[u8]) -> io::Result<usize>
        ensures { WritesAtMost result bytes.now }
    {
        let taken = self.write_in_time(bytes)?;
        self.recording.keep(self.sender, &bytes[..taken])?;
        Ok(taken)
    }
}

impl<'a, C: Runtime + AllocGlobal + Files<File = File>> Sink for TimedSink<'a, C> {
    ghost writer = { Spec.timed_writer };

    fn write(&mut self, bytes: &[u8]) -> Result<usize, DeviceFailed> {
        // What didn't go out of a text comes again.
        if self.unsent == 0 || self.unsent != bytes.len() {
            self.until = self.timer.end_of_write();
        }
        match self.write_piece(bytes) {
            Ok(taken) => {
                self.unsent = bytes.len().saturating_sub(taken);
                Ok(taken)
            }
            Err(_) => {
                self.failures = self.failures.saturating_add(1);
                Err(DeviceFailed)
            }
        }
    }
}

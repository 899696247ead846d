//! Recordings of what both ends sent: a line `MILLISECONDS host|station HEX` for each piece.
ghost use Rattle.std.specs.Prelude.{◌≡◌, ◌⊎◌, Err, IfErr, IfOk, IsErrAnd, Some};
ghost use Rattle.ws_script.specs.declared.asked.fault.RunFault.TheVariants as run;
ghost use Rattle.ws_script.specs.declared.asked.fault.ToldFault.TheVariants as told;
ghost use Rattle.ws_network.specs.Recordings as Spec;
ghost use Rattle.ws_text.specs.Printing.{Prints};

use std::cell::{Cell, OnceCell};
use std::fs::{File, OpenOptions};
use std::io::ErrorKind;
use std::net::SocketAddr;
use std::os::unix::fs::OpenOptionsExt;
use std::rt::{Files, Runtime};
use std::time::Instant;
use std::{fs, io};
use ws_code::{Sink, WriteSink};
use ws_live::hand_on;
use ws_printing::BufferedSink;
use ws_script::{RunFault, ToldFault, Unconnected};
use ws_text::{Hex, Number, Output, Text, texts};

// How many names are tried for a file that isn't there yet.
const NAMES_TRIED: u32 = 10_000;

/// Who sent a piece.
#[derive(Clone, Copy)]
pub enum PieceSender {
    Host,
    Station,
}

/// The file of a recording, where one is asked for. It is made when the first piece is to be recorded.
#[derive(Drop)]
pub(crate) struct RecordFile<'a> {
    pub(crate) name: Option<&'a str>,
    made: OnceCell<File>,
}

impl<'a> RecordFile<'a> {
    /// One of this name, or of a name like it; without a name none is made.
    ///
    /// # Errors
    ///
    /// As `unwritten` where the name's folder isn't there.
    pub(crate) fn new<R: AllocGlobal + Files>(
        rt: &R,
        name: Option<&'a str>,
    ) -> Result<Self, ToldFault>
        ensures named { IfOk result (λ file. file.name ≡ name.entry) }
        ensures fault { IfErr result (Spec.IsUnrecorded name.entry) }
    {
        if let Some(name) = name
            && !has_folder(rt, name)
        {
            return Err(unwritten(rt, name));
        }
        Ok(RecordFile {
            name,
            made: OnceCell::new(),
        })
    }

    // The file, where one is asked for. That it is made is told on standard error, with its name.
    fn get<R: Runtime + AllocGlobal + Files<File = File>>(
        &self,
        rt: &R,
    ) -> Result<Option<&File>, RunFault> {
        let Some(name) = self.name else {
            return Ok(None);
        };
        if self.made.get().is_none() {
            let _ = self.made.set(make_file(rt, name)?);
        }
        Ok(self.made.get())
    }
}

/// What is recorded of a connection, which begins with it; and which other side has reset it.
#[derive(Drop)]
pub(crate) struct Recording<'a, R> {
    rt: &'a R,
    pub(crate) file: &'a RecordFile<'a>,
    begun: Option<Instant>,
    has_failed: Cell<bool>,
    reset_by: Cell<Option<SocketAddr>>,
}

impl<'a, R: Runtime + AllocGlobal + Files<File = File>> Recording<'a, R> {
    /// A recording in this file of a connection that begins now.
    pub(crate) fn new(rt: &'a R, file: &'a RecordFile<'a>) -> Self {
        Recording {
            rt,
            file,
            begun: Instant::now(rt).ok(),
            has_failed: Cell::new(false),
            reset_by: Cell::new(None),
        }
    }

    /// What a session came to, whose pieces were recorded.
    ///
    /// # Errors
    ///
    /// As `unwritten` where the file couldn't be made or written, whatever the session came to; `Connection` in place of
    /// `Read` where the other side has reset the connection; else the fault that it came to.
    pub(crate) fn judge<T: Copy>(&self, outcome: Result<T, ToldFault>) -> Result<T, ToldFault>
        ensures { (result ≡ outcome) ⊎ IsErrAnd result (λ fault.
            Spec.IsUnrecorded self.entry.now.file.now.name fault
            ⊎ ((outcome ≡ Err (told.Run run.Read)) × Spec.IsResetTold fault)) }
    {
        if let Some(name) = self.file.name
            && self.has_failed.get()
        {
            return Err(unwritten(self.rt, name));
        }
        let Some(peer) = self.reset_by.get() else {
            return outcome;
        };
        match outcome {
            Err(ToldFault::Run(RunFault::Read)) => Err(self.reset(peer)),
            _ => outcome,
        }
    }

    /// Keeps that this other side, where it is known, has reset the connection.
    pub(crate) fn note_reset(&self, peer: Option<SocketAddr>) {
        self.reset_by.set(peer);
    }

    // That the other side has reset the connection.
    fn reset(&self, peer: SocketAddr) -> ToldFault
        ensures { Spec.IsResetTold result }
    {
        match format!(in self.rt.alloc(); "connection reset by {peer}") {
            Ok(text) => ToldFault::Connection(text),
            Err(_) => ToldFault::NoConnection(Unconnected::Reset),
        }
    }

    /// Records a piece that crossed the connection.
    ///
    /// # Errors
    ///
    /// `WriteZero` where the file couldn't be made or written; `judge` tells so from then on.
    pub(crate) fn keep(&self, sender: PieceSender, bytes: &[u8]) -> io::Result<()> {
        if bytes.is_empty() {
            return Ok(());
        }
        match self.write(sender, bytes) {
            Output::Open => Ok(()),
            Output::Failed => {
                self.has_failed.set(true);
                Err(io::Error::from(ErrorKind::WriteZero))
            }
        }
    }

    // Writes the line of a piece into the file, where there is to be one.
    fn write(&self, sender: PieceSender, bytes: &[u8]) -> Output {
        match self.file.get(self.rt) {
            Ok(Some(file)) => {
                let mut out = BufferedSink::new(WriteSink::new(file));
                let output = put_piece(&mut out, Output::Open, self.milliseconds(), sender, bytes);
                hand_on(&mut out, output)
            }
            Ok(None) => Output::Open,
            Err(_) => Output::Failed,
        }
    }

    // How many milliseconds ago the connection began; 0 where the clock can't tell.
    fn milliseconds(&self) -> u64 {
        let (Some(begun), Ok(now)) = (self.begun, Instant::now(self.rt)) else {
            return 0;
        };
        u64::try_from(now.saturating_duration_since(begun).as_millis()).unwrap_or(u64::MAX)
    }
}

/// That a recording's file of this name can't be made or written: `Recording`, or `Write` where a growth was refused.
fn unwritten<R: AllocGlobal>(rt: &R, name: &str) -> ToldFault
    ensures { Spec.IsUnrecorded (Some name.entry) result }
{
    match String::from_str(rt.alloc(), name) {
        Ok(name) => ToldFault::Recording(name),
        Err(_) => ToldFault::Run(RunFault::Write),
    }
}

// Writes the line of a piece.
fn put_piece<O: Sink>(
    out: &mut O,
    output: Output,
    milliseconds: u64,
    sender: PieceSender,
    bytes: &[u8],
) -> Output
    ensures { Prints O.writer out.old out.new output result
        (Spec.piece_line milliseconds sender bytes.now) }
{
    let sender = sender_word(sender);
    texts!(Number(milliseconds), sender, Hex(bytes), "\n").put_to(out, output)
}

fn sender_word(sender: PieceSender) -> &'static str
    ensures { result.now ≡ Spec.sender_word sender }
{
    match sender {
        PieceSender::Host => " host ",
        PieceSender::Station => " station ",
    }
}

// Makes the file of a recording, which its owner alone can read: of this name, or where a file has it already of this
// and `-1`, `-2` and so on. What is no plain file, as a pipe, is written as it is. `Write` where it can't be made or
// opened, also where all of 10,000 names are taken; `Memory` where a growth was refused.
fn make_file<R: Runtime + AllocGlobal + Files<File = File>>(
    rt: &R,
    name: &str,
) -> Result<File, RunFault> {
    if is_special(rt, name) {
        return told(rt, name, File::options().write(true).open(rt, name));
    }
    let mut made = new_file(rt, name);
    if !is_taken(&made) {
        return told(rt, name, made);
    }
    for number in 1..NAMES_TRIED {
        let Ok(next) = format!(in rt.alloc(); "{name}-{number}") else {
            return Err(RunFault::Memory);
        };
        made = new_file(rt, next.as_str());
        if !is_taken(&made) {
            return told(rt, next.as_str(), made);
        }
    }
    Err(RunFault::Write)
}

fn is_taken(outcome: &io::Result<File>) -> bool {
    matches!(outcome, Err(error) if error.kind() == ErrorKind::AlreadyExists)
}

// The file of this name, which is told on standard error where it was opened.
fn told<R: Runtime>(rt: &R, name: &str, outcome: io::Result<File>) -> Result<File, RunFault> {
    match outcome {
        Ok(file) => {
            let _ = eprintln!(rt; "recording: {name}");
            Ok(file)
        }
        Err(_) => Err(RunFault::Write),
    }
}

fn new_file<R: Files<File = File>>(rt: &R, name: &str) -> io::Result<File> {
    let mut how = OpenOptions::new();
    how.write(true).create_new(true).mode(0o600);
    how.open(rt, name)
}

// Whether a file can have this name, by the folder that is named before its last `/`.
fn has_folder<R: Files>(rt: &R, name: &str) -> bool {
    let folder = match name.rsplit_once('/') {
        Some(("", _)) => "/",
        Some((folder, _)) => folder,
        None => ".",
    };
    match fs::metadata(rt, folder) {
        Ok(about) => about.is_dir() && !name.is_empty(),
        Err(_) => false,
    }
}

// Whether it is there, and neither a plain file nor a folder.
fn is_special<R: Files>(rt: &R, name: &str) -> bool {
    match fs::metadata(rt, name) {
        Ok(about) => !about.is_file() && !about.is_dir(),
        Err(_) => false,
    }
}

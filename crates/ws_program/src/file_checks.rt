//! Checks of several files, a line for each.
ghost use Rattle.std.specs.Prelude.{◌≡◌, [], List, ℕ, length, IfOk, IfErr};
ghost use Rattle.ws_program.specs.Answering.{HasRefusalBy, sender_parts};
ghost use Rattle.ws_printing.specs.CheckLine.{IsVerdict};
ghost use Rattle.ws_program.specs.FileChecks.{AreChecked, IsCheckedBy, IsFaultOfFiles, IsFileChecked, IsFoundIn, IsUnfound};
ghost use Rattle.ws_printing.specs.SourceChecks.{GaveEnough, FailedBefore};

use crate::command_fault::CommandFault;
use crate::file_fault::of_file;
use crate::input::read_input;
use crate::program::answer_openly;
use crate::stream_bytes::bytes_of;
use crate::words::{InputAsked, StreamForm};
use std::fs::File;
use std::net::{Net, TcpListener, TcpStream};
use std::num::NonZeroU16;
use std::rt::Files;
use ws_code::{Fault, ReadSource, Sink, Source};
use ws_extended::{ExtendedAnswers, ExtendedCommands};
use ws_live::hand_on;
use ws_printing::{BufferedSink, Verdict, VerdictLine, verdict_from, verdict_of};
use ws_script::{OpenStreams, RunFault, Sender};
use ws_stream::{Answers, Commands};
use ws_text::{Output, Text, texts};

/// To check the bytes that files tell in a form, one file after another, in pieces of `cut` bytes, as a sender's.
#[derive(Debug, Drop)]
pub struct FileChecks<'a> {
    pub files: Vec<&'a str>,
    pub form: StreamForm,
    pub cut: NonZeroU16,
    pub from: Sender,
}

/// Does these checks: true where all are accepted. With `all` each goes on after a refusal with the next record; else a
/// line is written of each file. Standard output may have been closed when the program began.
///
/// # Errors
///
/// The fault that ended the first check that didn't end well, with the file's name where it is one of the file: it can't
/// be read or has another form, and the lines of those before it went out. `Write` where the sink failed or standard
/// output was closed, `Memory` where a growth was refused.
pub(crate) fn check_files<R, S>(
    rt: &R,
    checks: &FileChecks<'_>,
    all: bool,
    streams: OpenStreams,
    sink: &mut BufferedSink<S>,
) -> Result<bool, CommandFault>
where
    R: AllocGlobal + Files<File = File> + Input + Net<Listener = TcpListener, Stream = TcpStream>,
    S: Sink,
    requires empty { sink.old.held ≡ [] }
    ensures done { IfOk result (AreChecked (IsCheckedBy S.writer streams.output checks.now all)
        checks.now.files.items sink.old.sink sink.new.sink) }
    ensures fault { IfErr result (IsFaultOfFiles
        (IsCheckedBy S.writer streams.output checks.now all)
        checks.now.files.items sink.old.sink sink.new.sink) }
{
    let mut all_accepted = true;
    for file in checks.files.as_slice() {
        match check_one(rt, file, checks, all, streams, sink) {
            Ok(accepted) => all_accepted = all_accepted & accepted,
            Err(fault) => return Err(of_file(rt, file, fault)),
        }
    }
    Ok(all_accepted)
}

// Does the check of a file.
fn check_one<R, S>(
    rt: &R,
    file: &str,
    checks: &FileChecks<'_>,
    all: bool,
    streams: OpenStreams,
    sink: &mut BufferedSink<S>,
) -> Result<bool, RunFault>
where
    R: AllocGlobal + Files<File = File> + Input + Net<Listener = TcpListener, Stream = TcpStream>,
    S: Sink,
    requires empty { sink.old.held ≡ [] }
    ensures held { sink.new.held ≡ [] }
    ensures checked { IsCheckedBy S.writer streams.output checks.now all file.entry sink.old.sink
        sink.new.sink result }
{
    if !all {
        return check_named(rt, file, checks, streams, sink);
    }
    let asked = InputAsked::CheckAll {
        file: Some(file),
        form: checks.form,
        from: checks.from,
        named: true,
    };
    let input = read_input(rt, Some(file))?;
    answer_openly(rt, rt.alloc(), asked, input.as_slice(), streams, sink)
}

// Checks a file, and writes its line.
fn check_named<R: AllocGlobal + Files<File = File> + Input, S: Sink>(
    rt: &R,
    file: &str,
    checks: &FileChecks<'_>,
    streams: OpenStreams,
    sink: &mut BufferedSink<S>,
) -> Result<bool, RunFault>
    requires empty { sink.old.held ≡ [] }
    ensures held { sink.new.held ≡ [] }
    ensures checked { IsFileChecked S.writer checks.now file.entry sink.old.sink sink.new.sink
        result }
{
    let (verdict, size) = file_verdict(rt, file, checks)?;
    if !streams.output {
        return Err(RunFault::Write);
    }
    let line = texts!(file, ": ", VerdictLine(verdict, size as u64));
    let output = line.put_to(sink, Output::Open);
    match hand_on(sink, output) {
        Output::Open => Ok(verdict.is_accepted()),
        Output::Failed => Err(RunFault::Write),
    }
}

// What holds of a file's stream, and how many bytes that has.
fn file_verdict<R: AllocGlobal + Files<File = File> + Input>(
    rt: &R,
    file: &str,
    checks: &FileChecks<'_>,
) -> Result<(Verdict, usize), RunFault>
    ensures found { IfOk result (λ found. (bytes : List ℕ)
        × IsFoundIn checks.now.form checks.now.from bytes found.0 × (found.1 ≡ length bytes)) }
    ensures fault { IfErr result (IsUnfound checks.now.form) }
{
    if let StreamForm::Raw = checks.form {
        // None of them is held.
        let mut source = ReadSource::new(File::open(rt, file)?);
        return Ok(source_verdict(checks.cut, checks.from, &mut source)?);
    }
    let input = read_input(rt, Some(file))?;
    let told = bytes_of(rt.alloc(), checks.form, input.as_slice())?;
    let bytes = told.as_slice();
    Ok((sent_verdict(bytes, checks.cut, checks.from), bytes.len()))
}

// What holds of bytes as those of a sender.
fn sent_verdict(bytes: &[u8], cut: NonZeroU16, from: Sender) -> Verdict
    ensures { IsVerdict (sender_parts from).rules bytes.now result }
{
    match from {
        Sender::Host => verdict_of::<Commands>(bytes, cut.get()),
        Sender::ExtendedHost => verdict_of::<ExtendedCommands>(bytes, cut.get()),
        Sender::Station => verdict_of::<Answers>(bytes, cut.get()),
        Sender::ExtendedStation => verdict_of::<ExtendedAnswers>(bytes, cut.get()),
    }
}

// What holds of the bytes that a source gives, as those of a sender, and how many it gave.
fn source_verdict<R: Source>(
    cut: NonZeroU16,
    from: Sender,
    source: &mut R,
) -> Result<(Verdict, usize), Fault>
    ensures given { IfOk result (λ found. (bytes : List ℕ)
        × GaveEnough R.reader source.old source.new (HasRefusalBy from) bytes
        × IsVerdict (sender_parts from).rules bytes found.0 × (found.1 ≡ length bytes)) }
    ensures failed { IfErr result (λ fault. (fault ≡ Fault.Read)
        × FailedBefore R.reader source.old source.new (HasRefusalBy from)) }
{
    let mut room = [0u8; 65_535];
    let room = &mut room[..usize::from(cut.get())];
    match from {
        Sender::Host => verdict_from::<Commands, R>(source, room),
        Sender::ExtendedHost => verdict_from::<ExtendedCommands, R>(source, room),
        Sender::Station => verdict_from::<Answers, R>(source, room),
        Sender::ExtendedStation => verdict_from::<ExtendedAnswers, R>(source, room),
    }
}

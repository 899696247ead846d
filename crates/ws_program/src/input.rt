//! The words of the command line, and the input of a command.
ghost use Rattle.std.specs.Prelude.{◌≡◌, [], IfErr};
ghost use Rattle.ws_printing.specs.Printouts.{printout};
ghost use Rattle.ws_program.specs.FileFaults.{IsInputUnread};
ghost use Rattle.ws_program.specs.Runs.{IsRawDone, IsWordsFault};

use crate::command_fault::CommandFault;
use crate::sources::{check_source_openly, show_source_openly};
use crate::words::{InputAsked, StreamForm, no_text};
use std::fs::File;
use std::io::Read;
use std::num::NonZeroU16;
use std::rt::{Env, Files};
use std::{env, fs, io};
use ws_code::{ReadSource, Sink};
use ws_printing::{BufferedSink, Look};
use ws_script::{OpenStreams, RunFault, Sender};

/// The words of the command line, the program's name first.
///
/// # Errors
///
/// `Words` where they can't be taken as text, `Run` with `Memory` where a growth was refused.
pub(crate) fn given_words<R: Env + AllocGlobal>(rt: &R) -> Result<Vec<String>, CommandFault>
    ensures { IfErr result IsWordsFault }
{
    let words = match env::args(rt) {
        Ok(words) => words.collect(rt.alloc()),
        Err(error) if error.kind() == io::ErrorKind::OutOfMemory => {
            return Err(CommandFault::Run(RunFault::Memory));
        }
        Err(_) => return Err(CommandFault::Words(no_text(rt.alloc())?)),
    };
    words.map_err(|_| CommandFault::Run(RunFault::Memory))
}

/// The whole of the file, or of standard input where none is named.
///
/// # Errors
///
/// `Read` where it can't be read, `Memory` where a growth was refused in reading it.
pub(crate) fn read_input<R: Files + Input + AllocGlobal>(
    rt: &R,
    file: Option<&str>,
) -> Result<Vec<u8>, RunFault>
    ensures { IfErr result IsInputUnread }
{
    match file {
        Some(path) => Ok(fs::read(rt, path)?),
        None => {
            let mut text = Vec::new(rt.alloc());
            rt.reader().read_to_end(&mut text)?;
            Ok(text)
        }
    }
}

/// Checks the bytes of the file, or of standard input where none is named, while they are read.
///
/// # Errors
///
/// `Read` or `Memory` where the file can't be opened, and then nothing was written; else as `check_source_openly`.
pub(crate) fn check_file<R: Files<File = File> + Input, S: Sink>(
    rt: &R,
    file: Option<&str>,
    cut: NonZeroU16,
    from: Sender,
    streams: OpenStreams,
    sink: &mut BufferedSink<S>,
) -> Result<bool, RunFault>
    requires empty { sink.old.held ≡ [] }
    ensures { IsRawDone (printout S.writer sink.old.sink sink.new.sink) streams
        (InputAsked.Check file.entry StreamForm.Raw cut from) result }
{
    match file {
        Some(path) => {
            let mut source = ReadSource::new(File::open(rt, path)?);
            check_source_openly(cut, from, streams, &mut source, sink)
        }
        None => {
            let mut source = ReadSource::new(rt.reader());
            check_source_openly(cut, from, streams, &mut source, sink)
        }
    }
}

/// Shows the bytes of the file, or of standard input where none is named, while they are read.
///
/// # Errors
///
/// `Read` or `Memory` where the file can't be opened, and then nothing was written; else as `show_source_openly`.
pub(crate) fn show_file<R: Files<File = File> + Input + AllocGlobal, S: Sink>(
    rt: &R,
    file: Option<&str>,
    from: Sender,
    look: Look,
    streams: OpenStreams,
    sink: &mut BufferedSink<S>,
) -> Result<bool, RunFault>
    requires empty { sink.old.held ≡ [] }
    ensures { IsRawDone (printout S.writer sink.old.sink sink.new.sink) streams
        (InputAsked.Show file.entry StreamForm.Raw from look) result }
{
    match file {
        Some(path) => {
            let mut source = ReadSource::new(File::open(rt, path)?);
            show_source_openly(rt.alloc(), look, from, streams, &mut source, sink)
        }
        None => {
            let mut source = ReadSource::new(rt.reader());
            show_source_openly(rt.alloc(), look, from, streams, &mut source, sink)
        }
    }
}

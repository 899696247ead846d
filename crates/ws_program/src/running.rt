//! What the program does by the words of its command line.
ghost use Rattle.std.specs.Prelude.{◌≡◌, [], IfOk, IfErr};
ghost use Rattle.ws_printing.specs.Printouts.{printout};
ghost use Rattle.ws_network.specs.LiveSessions.{script_of as the_script};
ghost use Rattle.ws_program.specs.Runs.{HasRunInput, HasRunTask, IsFaultOfInput, IsFaultOfRun, IsFaultOfTask};
ghost use Rattle.ws_program.specs.declared.words.command_line.Task.{Task as ATask};

use crate::command_fault::CommandFault;
use crate::file_checks::check_files;
use crate::file_fault::{told_of, with_cause, with_file};
use crate::input::{check_file, given_words, read_input, show_file};
use crate::program::answer_openly;
use crate::stream_trace::trace_streams;
use crate::tables::print_table;
use crate::words::{InputAsked, StreamForm, Task, read_words};
use std::fs::File;
use std::io::IsTerminal;
use std::net::{Net, TcpListener, TcpStream};
use std::rt::{Files, Runtime};
use ws_code::Sink;
use ws_live::SessionAsked;
use ws_network::run_live;
use ws_printing::BufferedSink;
use ws_script::{OpenStreams, ToldFault};

/// Does what the words of the command line ask for, and writes what is told of it: true where all was accepted, of
/// which `status` makes the exit status.
///
/// # Errors
///
/// `Words` where they ask for nothing that the program knows, or for help, and `Run` where a growth was refused in
/// reading them; then nothing was written. Any other as `run_task` has it.
pub fn run<R, S>(
    rt: &R,
    streams: OpenStreams,
    sink: &mut BufferedSink<S>,
) -> Result<bool, CommandFault>
where
    R: Runtime + AllocGlobal + Files<File = File> + Net<Listener = TcpListener, Stream = TcpStream>,
    R::Reader: IsTerminal,
    S: Sink,
    requires empty { sink.old.held ≡ [] }
    ensures done { IfOk result (λ accepted. (task : ATask) × HasRunTask
        (printout S.writer sink.old.sink sink.new.sink) streams task accepted) }
    ensures fault { IfErr result
        (IsFaultOfRun (printout S.writer sink.old.sink sink.new.sink) streams) }
{
    let words = given_words(rt)?;
    let task = read_words(rt.alloc(), words.as_slice())?;
    run_task(rt, task, streams, sink)
}

/// Does this task. All of an input is read first, but raw bytes are checked and shown while they are read.
///
/// # Errors
///
/// Of an input, `Read` or `Memory` where it can't be read, and then nothing was written, or what is shown of raw bytes
/// before; else as `answer_openly` has it, with its cause, as `told_of` tells it. Of files as `check_files` has it, of
/// streams as `trace_streams`, of a table as `print_table`, of a live session as `run_live`, and of its script as
/// `with_file`.
pub(crate) fn run_task<R, S>(
    rt: &R,
    task: Task<'_>,
    streams: OpenStreams,
    sink: &mut BufferedSink<S>,
) -> Result<bool, CommandFault>
where
    R: Runtime + AllocGlobal + Files<File = File> + Net<Listener = TcpListener, Stream = TcpStream>,
    R::Reader: IsTerminal,
    S: Sink,
    requires empty { sink.old.held ≡ [] }
    ensures done { IfOk result (HasRunTask
        (printout S.writer sink.old.sink sink.new.sink) streams task.entry) }
    ensures fault { IfErr result (IsFaultOfTask
        (printout S.writer sink.old.sink sink.new.sink) streams task.entry) }
{
    match task {
        Task::Input(asked) => {
            let outcome = run_input(rt, asked, streams, sink);
            told_of(rt, asked, outcome)
        }
        Task::Files(checks) => check_files(rt, &checks, false, streams, sink),
        Task::AllFiles(checks) => check_files(rt, &checks, true, streams, sink),
        Task::Streams(traced) => trace_streams(rt, traced, streams, sink),
        Task::Print(table) => print_table(table, streams.output, sink),
        Task::Live(asked) => {
            let script = script_of(&asked);
            let outcome = run_live(rt, asked, streams, sink);
            with_file(rt, script, outcome)
        }
    }
}

// The script of a live session.
fn script_of<'a>(asked: &SessionAsked<'a>) -> Option<&'a str>
    ensures { result ≡ the_script asked.now }
{
    match asked {
        SessionAsked::Connect(asked) => asked.script,
        SessionAsked::Serve(asked) => asked.script,
    }
}

// Does what is asked of an input.
fn run_input<R, S>(
    rt: &R,
    asked: InputAsked<'_>,
    streams: OpenStreams,
    sink: &mut BufferedSink<S>,
) -> Result<bool, ToldFault>
where
    R: Runtime + AllocGlobal + Files<File = File> + Net<Listener = TcpListener, Stream = TcpStream>,
    S: Sink,
    requires empty { sink.old.held ≡ [] }
    ensures done { IfOk result (HasRunInput
        (printout S.writer sink.old.sink sink.new.sink) streams asked.entry) }
    ensures fault { IfErr result (IsFaultOfInput
        (printout S.writer sink.old.sink sink.new.sink) streams asked.entry) }
{
    if let InputAsked::Check {
        file,
        form,
        cut,
        from,
    } = asked
    {
        if let StreamForm::Raw = form {
            return Ok(check_file(rt, file, cut, from, streams, sink)?);
        }
    }
    run_other(rt, asked, streams, sink)
}

// The same of any but a check of raw bytes.
fn run_other<R, S>(
    rt: &R,
    asked: InputAsked<'_>,
    streams: OpenStreams,
    sink: &mut BufferedSink<S>,
) -> Result<bool, ToldFault>
where
    R: Runtime + AllocGlobal + Files<File = File> + Net<Listener = TcpListener, Stream = TcpStream>,
    S: Sink,
    requires empty { sink.old.held ≡ [] }
    ensures done { IfOk result (HasRunInput
        (printout S.writer sink.old.sink sink.new.sink) streams asked.entry) }
    ensures fault { IfErr result (IsFaultOfInput
        (printout S.writer sink.old.sink sink.new.sink) streams asked.entry) }
{
    if let InputAsked::Show {
        file,
        form,
        from,
        look,
    } = asked
    {
        if let StreamForm::Raw = form {
            return Ok(show_file(rt, file, from, look, streams, sink)?);
        }
    }
    let input = read_input(rt, asked.file())?;
    let text = input.as_slice();
    let outcome = answer_openly(rt, rt.alloc(), asked, text, streams, sink);
    with_cause(rt.alloc(), asked, text, outcome)
}

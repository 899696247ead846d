//! The program `t5250`, which checks and shows recorded 5250 streams (RFC 1205), makes them from text, and plays
//! scripts with both ends.
//!
//! Its status is 0 where a stream is accepted, 1 where it is refused or truncated, and 2 on a fault. A fault
//! is one line on standard error, or the text of `clap` for a wrong command line. Faults are looked for in this
//! order: the command line, reading, hex text or lines, the connection, and then those met in running. Where standard
//! output was closed when it began, that is the last fault of all, but for a connection: none is opened then.
#![tactic(auto)]

ghost use Rattle.std.specs.Prelude.{◌≡◌, []};

mod progress;
mod standard_output;
mod standard_streams;

use crate::progress::Progress;
use crate::standard_output::StandardOutput;
use crate::standard_streams::StandardStreams;
use clap::error::ErrorKind as WordsKind;
use std::io;
use std::io::ErrorKind;
use std::process::ExitCode;
use ws_code::Sink;
use ws_printing::BufferedSink;
use ws_program::{CommandFault, run, status};
use ws_script::{RunFault, ToldFault};

// What stands after the version. Packing writes the commit over what follows the first word (tools/stamp.py), so it is
// of one length with or without it.
const COMMIT: &str = "commit not recorded, as it was built in a clone";

// Does what the command line asks for, with no standard stream's descriptor free as long as it runs: true where all was
// accepted.
fn run_filled<S: Sink>(rt: &HostRuntime, sink: &mut BufferedSink<S>) -> Result<bool, CommandFault>
    requires empty { sink.old.held ≡ [] }
{
    let streams = StandardStreams::new(rt)?;
    run(rt, streams.open, sink)
}

// Tells of a fault in its line, of a wrong command line in the text of `clap`, both on standard error. Help
// that was asked for goes to standard output, and is no fault. Where nobody reads standard output any more nothing is
// said of that, but by the commands whose every fault has its line.
fn tell(rt: &HostRuntime, fault: CommandFault, is_unread: bool) -> Result<bool, CommandFault> {
    match fault {
        CommandFault::Words(words) => match print_words(rt, &words) {
            Ok(()) if !words.use_stderr() => Ok(true),
            Err(error) if !words.use_stderr() => {
                unwritten(rt, error.kind() == ErrorKind::BrokenPipe)
            }
            _ => Err(CommandFault::Words(words)),
        },
        CommandFault::Run(fault) => tell_told(rt, ToldFault::Run(fault)),
        CommandFault::Told(fault) => tell_told(rt, fault),
        CommandFault::OfFile { fault, file, why } => {
            let _ = match why {
                Some(why) => eprintln!(rt; "{fault}: {file}: {why}"),
                None => eprintln!(rt; "{fault}: {file}"),
            };
            Err(CommandFault::OfFile { fault, file, why })
        }
        CommandFault::Unwritten => unwritten(rt, is_unread),
    }
}

// Prints what `clap` tells, and after a version of which commit it is.
fn print_words(rt: &HostRuntime, words: &clap::Error) -> io::Result<()> {
    words.print(rt)?;
    match words.kind() {
        WordsKind::DisplayVersion => println!(rt; "{COMMIT}"),
        _ => Ok(()),
    }
}

fn unwritten(rt: &HostRuntime, is_unread: bool) -> Result<bool, CommandFault> {
    if is_unread {
        return Err(CommandFault::Unwritten);
    }
    tell_told(rt, ToldFault::Run(RunFault::Write))
}

fn tell_told(rt: &HostRuntime, fault: ToldFault) -> Result<bool, CommandFault> {
    let _ = eprintln!(rt; "{fault}");
    Err(CommandFault::Told(fault))
}

fn main(rt: HostRuntime) -> ExitCode {
    let mut sink = BufferedSink::new(StandardOutput::new(io::writer(&rt), Progress::new(&rt)));
    let outcome = run_filled(&rt, &mut sink);
    let is_unread = sink.into_inner().end();
    let outcome = match outcome {
        Ok(accepted) => Ok(accepted),
        Err(fault) => tell(&rt, fault, is_unread),
    };
    ExitCode::from(status(&outcome))
}

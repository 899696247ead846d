//! What ends the program, as it is told.
ghost use Rattle.std.specs.Prelude.{◌≡◌};
ghost use Rattle.ws_program.specs.Runs.{IsWordsFault};
ghost use Rattle.ws_program.specs.declared.command_fault.CommandFault.TheVariants as command;

use crate::file_fault::Unreadable;
use ws_script::{RunFault, ToldFault};

/// What ends the program before it runs, or in running.
#[derive(Drop)]
pub enum CommandFault {
    /// The command line asks for nothing that the program knows, or for help.
    Words(clap::Error),
    Run(RunFault),
    /// The same, with its cause where it has one.
    Told(ToldFault),
    /// The same, of a file that its line names, with why the file can't be read where that is known.
    OfFile {
        fault: RunFault,
        file: String,
        why: Option<Unreadable>,
    },
    /// `Write` of a command that says nothing of it where nobody reads its output any more: any but `check`, `show` and
    /// `play`.
    Unwritten,
}

impl From<clap::Error> for CommandFault {
    ghost from_gives = { λ error fault. IsWordsFault fault };

    // Want of memory is a fault of its own, also in reading the command line.
    fn from(error: clap::Error) -> Self {
        if error.kind() == clap::error::ErrorKind::OutOfMemory {
            CommandFault::Run(RunFault::Memory)
        } else {
            CommandFault::Words(error)
        }
    }
}

impl From<RunFault> for CommandFault {
    fn from(fault: RunFault) -> Self {
        CommandFault::Run(fault)
    }
}

impl From<ToldFault> for CommandFault {
    ghost from_gives = { λ fault told. told ≡ command.Told fault };

    fn from(fault: ToldFault) -> Self {
        CommandFault::Told(fault)
    }
}

//! The faults that end the program, and why there is no connection.
ghost use Rattle.std.specs.Prelude.{◌≡◌};
ghost use Rattle.ws_script.specs.asked.RunFaults.{run_fault, script_run_fault, items_run_fault};
ghost use Rattle.std_io.specs.IoError.{error_kind};
ghost use Rattle.ws_script.specs.asked.RunFaults.{told_fault, unconnected_by, fault_of_reading};
ghost use Rattle.ws_script.specs.declared.asked.fault.ToldFault.TheVariants as told_variant;

use std::io;
use thiserror::Error;
use ws_code::{Fault, Reason};
use ws_printing::ScriptFault;
use ws_text::TextFault as ItemsFault;

/// What ends the program with status 2, other than a wrong command line. Each has one line.
#[derive(Clone, Copy, Debug, PartialEq, Eq, Drop, Error)]
pub enum RunFault {
    #[error("cannot read")]
    Read,
    #[error("not hex")]
    NotHex,
    /// The first bad line of a script, or of items as text, counted from 1.
    #[error("script line {0}")]
    Line(u64),
    #[error("memory")]
    Memory,
    #[error("cannot write")]
    Write,
    #[error("no connection")]
    NoConnection,
    /// What a command tells of its stream in a line, and never ends with.
    #[error("refused at {place}: reason {number} {name}", number = .reason.number(), name = .reason.name())]
    Refused { place: u64, reason: Reason },
    /// The same.
    #[error("truncated at {at}")]
    Truncated { at: u64 },
    /// A call after a fault, which no command makes.
    #[error("failed")]
    Failed,
}

/// The same with its cause, where a script, items as text or a connection is at fault.
#[derive(Debug, PartialEq, Eq, Drop, Error)]
pub enum ToldFault {
    #[error("{0}")]
    Run(RunFault),
    /// The first bad line of a script, or of items as text, counted from 1, and why it is bad.
    #[error("script line {number}: {cause}")]
    Line { number: u64, cause: String },
    #[error("no connection: {0}")]
    NoConnection(Unconnected),
    /// Why there is no connection, or none any more, with its address.
    #[error("{0}")]
    Connection(String),
    /// A recording's file of this name can't be made or written.
    #[error("cannot write: {0}")]
    Recording(String),
}

/// Why there is no connection. Each has a word or some.
#[derive(Clone, Copy, Debug, PartialEq, Eq, Drop, Error)]
pub enum Unconnected {
    #[error("refused")]
    Refused,
    /// Nothing has this name, or names couldn't be looked up.
    #[error("unknown name")]
    UnknownName,
    #[error("address in use")]
    AddressInUse,
    /// No network of this machine has it.
    #[error("no address of this machine")]
    OtherAddress,
    #[error("late")]
    Late,
    #[error("unreachable")]
    Unreachable,
    #[error("not allowed")]
    NotAllowed,
    /// The other side ended it at once.
    #[error("reset")]
    Reset,
    #[error("failed")]
    Failed,
}

/// Why there is no connection, by the kind of the error of a call that opens one.
pub fn no_connection(kind: io::ErrorKind) -> Unconnected
    ensures { result ≡ unconnected_by kind }
{
    match kind {
        io::ErrorKind::ConnectionRefused => Unconnected::Refused,
        io::ErrorKind::AddrInUse => Unconnected::AddressInUse,
        io::ErrorKind::AddrNotAvailable => Unconnected::OtherAddress,
        io::ErrorKind::TimedOut | io::ErrorKind::WouldBlock => Unconnected::Late,
        io::ErrorKind::HostUnreachable
        | io::ErrorKind::NetworkUnreachable
        | io::ErrorKind::NetworkDown => Unconnected::Unreachable,
        io::ErrorKind::PermissionDenied => Unconnected::NotAllowed,
        io::ErrorKind::ConnectionReset | io::ErrorKind::ConnectionAborted => Unconnected::Reset,
        _ => Unconnected::Failed,
    }
}

impl From<RunFault> for ToldFault {
    ghost from_gives = { λ fault told. told ≡ told_variant.Run fault };

    fn from(fault: RunFault) -> Self {
        ToldFault::Run(fault)
    }
}

impl From<Fault> for ToldFault {
    ghost from_gives = { λ fault told. told ≡ told_fault fault };

    fn from(fault: Fault) -> Self {
        ToldFault::Run(RunFault::from(fault))
    }
}

impl From<Fault> for RunFault {
    ghost from_gives = { λ fault told. told ≡ run_fault fault };

    fn from(fault: Fault) -> Self {
        match fault {
            Fault::Refused { place, reason } => RunFault::Refused { place, reason },
            Fault::Truncated { at } => RunFault::Truncated { at },
            Fault::Memory => RunFault::Memory,
            Fault::Read => RunFault::Read,
            Fault::Write => RunFault::Write,
            Fault::Failed => RunFault::Failed,
        }
    }
}

impl From<ScriptFault> for RunFault {
    ghost from_gives = { λ fault told. told ≡ script_run_fault fault };

    fn from(fault: ScriptFault) -> Self {
        match fault {
            ScriptFault::Line(number) => RunFault::Line(number),
            ScriptFault::Memory => RunFault::Memory,
        }
    }
}

impl From<ItemsFault> for RunFault {
    ghost from_gives = { λ fault told. told ≡ items_run_fault fault };

    fn from(fault: ItemsFault) -> Self {
        match fault {
            ItemsFault::Line(number) => RunFault::Line(number),
            ItemsFault::Memory => RunFault::Memory,
        }
    }
}

impl From<io::Error> for RunFault {
    ghost from_gives = { λ error fault. fault ≡ fault_of_reading (error_kind error) };

    // Of an input.
    fn from(error: io::Error) -> Self {
        match error.kind() {
            io::ErrorKind::OutOfMemory => RunFault::Memory,
            _ => RunFault::Read,
        }
    }
}

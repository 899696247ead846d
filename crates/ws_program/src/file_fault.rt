//! Faults with their causes, and with the name of the file that they are about.
ghost use Rattle.std.specs.Prelude.{◌≡◌, Ok, IfOk, IfErr, IsErrAnd};
ghost use Rattle.std.specs.Option.{option_map};
ghost use Rattle.ws_program.specs.FileFaults.{IsOfFile, IsOtherLineTold, IsToldBy, IsToldOf, IsToldOfFile};

use crate::command_fault::CommandFault;
use crate::hex_text::is_blank;
use crate::words::InputAsked;
use std::alloc::Global;
use std::fs;
use std::fs::File;
use std::io::ErrorKind;
use std::rt::Files;
use thiserror::Error;
use ws_script::{RunFault, ToldFault, Vocabulary, bad_line};

/// Why a file can't be read, or not as hex text.
#[derive(Clone, Copy, Debug, PartialEq, Eq, Drop, Error)]
pub enum Unreadable {
    #[error("no such file")]
    Missing,
    #[error("is a folder")]
    Folder,
    #[error("not allowed")]
    NotAllowed,
    /// The first byte that is no part of hex text, counted from 0.
    #[error("byte {at} is '{shown}'")]
    OtherByte { at: usize, shown: char },
}

/// What a command came to with this input, with its cause where items as text or a recording to be traced have a bad line.
///
/// # Errors
///
/// As `bad_line` where items as text have a bad line, and `Line` or `Memory` where a recording has; else `Run` with the
/// fault that it came to.
pub(crate) fn with_cause(
    alloc: Global,
    asked: InputAsked<'_>,
    text: &[u8],
    outcome: Result<bool, RunFault>,
) -> Result<bool, ToldFault>
    ensures done { IfOk result (λ accepted. outcome ≡ Ok accepted) }
    ensures fault { IfErr result (λ fault. IsErrAnd outcome (IsToldOf asked.entry text.now fault)) }
{
    match outcome {
        Ok(accepted) => Ok(accepted),
        Err(fault) => Err(told_fault(alloc, asked, text, fault)),
    }
}

fn told_fault(alloc: Global, asked: InputAsked<'_>, text: &[u8], fault: RunFault) -> ToldFault
    ensures { IsToldOf asked.entry text.now result fault }
{
    match (asked, fault) {
        (InputAsked::Make { from, .. }, RunFault::Line(number)) => {
            bad_line(alloc, text, number, Vocabulary::Items(from))
        }
        (InputAsked::Trace { .. }, RunFault::Line(number)) => other_line(alloc, number),
        _ => ToldFault::Run(fault),
    }
}

// That the line of this number is none of a recording.
fn other_line(alloc: Global, number: u64) -> ToldFault
    ensures { IsOtherLineTold number result }
{
    match String::from_str(alloc, "it isn't `MILLISECONDS host|station HEX`") {
        Ok(cause) => ToldFault::Line { number, cause },
        Err(_) => ToldFault::Run(RunFault::Memory),
    }
}

/// What a command of an input came to, as it is told.
///
/// # Errors
///
/// As `with_file` of `make` and `trace`, and else `Told` with the fault that it came to.
pub(crate) fn told_of<R: AllocGlobal + Files<File = File>>(
    rt: &R,
    asked: InputAsked<'_>,
    outcome: Result<bool, ToldFault>,
) -> Result<bool, CommandFault>
    ensures done { IfOk result (λ accepted. outcome ≡ Ok accepted) }
    ensures fault { IfErr result
        (λ fault. IsErrAnd outcome (λ met. IsToldBy asked.entry met fault)) }
{
    if let InputAsked::Make { file, .. } = asked {
        return with_file(rt, file, outcome);
    }
    if let InputAsked::Trace { file, .. } = asked {
        return with_file(rt, file, outcome);
    }
    match outcome {
        Ok(accepted) => Ok(accepted),
        Err(fault) => Err(CommandFault::Told(fault)),
    }
}

/// What a command came to that reads this file: with the file's name where that can't be read, for which it is looked at
/// again.
///
/// # Errors
///
/// The fault that it came to, which is `Unwritten` where that is `Write`; `OfFile` where the file can't be read and it
/// shows why, and then `Told` with `Memory` where a growth was refused for the name.
pub(crate) fn with_file<R: AllocGlobal + Files<File = File>>(
    rt: &R,
    file: Option<&str>,
    outcome: Result<bool, ToldFault>,
) -> Result<bool, CommandFault>
    ensures done { IfOk result (λ accepted. outcome ≡ Ok accepted) }
    ensures fault { IfErr result (λ fault. IsErrAnd outcome
        (λ met. IsToldOfFile (option_map (λ name. name.now) file.entry) met fault)) }
{
    match outcome {
        Ok(accepted) => Ok(accepted),
        Err(ToldFault::Run(RunFault::Read)) => Err(unread(rt, file)),
        Err(ToldFault::Run(RunFault::Write)) => Err(CommandFault::Unwritten),
        Err(fault) => Err(CommandFault::Told(fault)),
    }
}

// The fault of a command that couldn't read.
fn unread<R: AllocGlobal + Files<File = File>>(rt: &R, file: Option<&str>) -> CommandFault
    ensures { IsToldOfFile (option_map (λ name. name.now) file.entry)
        (ToldFault.Run RunFault.Read) result }
{
    let plain = CommandFault::Told(ToldFault::Run(RunFault::Read));
    let Some(name) = file else {
        return plain;
    };
    match why_unread(rt, name) {
        Some(why) => named(rt, name, RunFault::Read, Some(why)),
        None => plain,
    }
}

/// A fault that one of several files met, with its name; those that aren't of a file have none.
pub(crate) fn of_file<R: AllocGlobal + Files<File = File>>(
    rt: &R,
    file: &str,
    fault: RunFault,
) -> CommandFault
    ensures { IsOfFile file.now fault result }
{
    match fault {
        RunFault::Memory | RunFault::Write => CommandFault::Told(ToldFault::Run(fault)),
        RunFault::Read => named(rt, file, fault, why_unread(rt, file)),
        RunFault::NotHex => named(rt, file, fault, other_byte(rt, file)),
        _ => named(rt, file, fault, None),
    }
}

fn named<R: AllocGlobal>(
    rt: &R,
    file: &str,
    fault: RunFault,
    why: Option<Unreadable>,
) -> CommandFault
    ensures { IsOfFile file.now fault result }
{
    match String::from_str(rt.alloc(), file) {
        Ok(file) => CommandFault::OfFile { fault, file, why },
        Err(_) => CommandFault::Told(ToldFault::Run(RunFault::Memory)),
    }
}

// Why this file can't be read, where it shows. Only a plain file is opened: a pipe would wait for its other side.
fn why_unread<R: Files<File = File>>(rt: &R, name: &str) -> Option<Unreadable> {
    let about = match fs::metadata(rt, name) {
        Ok(about) => about,
        Err(error) => return why_unopened(error.kind()),
    };
    if about.is_dir() {
        return Some(Unreadable::Folder);
    }
    if !about.is_file() {
        return None;
    }
    match File::open(rt, name) {
        Ok(_) => None,
        Err(error) => why_unopened(error.kind()),
    }
}

// The first byte of this file that is no part of hex text, where there is one. The file is read once more.
fn other_byte<R: AllocGlobal + Files<File = File>>(rt: &R, name: &str) -> Option<Unreadable> {
    if !fs::metadata(rt, name).ok()?.is_file() {
        return None;
    }
    let text = fs::read(rt, name).ok()?;
    for (at, byte) in text.as_slice().iter().enumerate() {
        if !byte.is_ascii_hexdigit() && !is_blank(*byte) {
            return Some(Unreadable::OtherByte {
                at,
                shown: shown(*byte),
            });
        }
    }
    None
}

// A byte as a character, where it has a shape in ASCII.
fn shown(byte: u8) -> char {
    if byte.is_ascii_graphic() {
        char::from(byte)
    } else {
        '\u{fffd}'
    }
}

fn why_unopened(kind: ErrorKind) -> Option<Unreadable> {
    match kind {
        ErrorKind::NotFound | ErrorKind::NotADirectory => Some(Unreadable::Missing),
        ErrorKind::PermissionDenied => Some(Unreadable::NotAllowed),
        _ => None,
    }
}

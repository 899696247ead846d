//! A line of a script for a host.
ghost use Rattle.std.specs.Prelude.{◌≡◌, ◌++◌, ℕ, List as Seq, codes, MatchOption};
ghost use Rattle.ws_script.specs.declared.lines.serve_line.AnswerAwaited.{AnswerAwaited as AnAnswer};
ghost use Rattle.ws_script.specs.lines.ServeLines as Spec;
ghost use Rattle.ws_script.specs.lines.ServeLines.{IsAnswerAwaited, OpensHostBlock, host_language};

use crate::lines::live_line::LiveLine;
use crate::lines::text_line::{TextLine, read_line};
use crate::lines::wire_line::WireLine;
use crate::lines::wire_words::read_wire;
use std::alloc::Global;
use std::str;
use ws_code::Aid;
use ws_printing::{ScriptFault, aid_named, read_move, read_opcode};
use ws_record::Opcode;
use ws_session::{HostRequest, Move};
use ws_stream::Commands;
use ws_text::{TextFault, read_elements};

/// The answer that a host waits for.
#[derive(Clone, Copy, Debug, PartialEq, Eq)]
pub enum AnswerAwaited {
    /// Any answer.
    Any,
    /// One by this key.
    By(Aid),
}

/// A line of a script for a host of one station.
#[derive(Drop)]
pub enum HostLine {
    /// An empty line, a comment, or the end of the lines that belong to the one before.
    Nothing,
    /// The host end is told to send a record, or to cancel its read.
    Give(HostRequest),
    /// The host end takes what the station sends, until it tells something.
    Await,
    /// The host end takes what the station sends, until it tells this answer.
    AwaitAnswer(AnswerAwaited),
    /// The screen that the host end keeps is printed.
    Show,
    /// Something is done at the connection itself.
    Wire(WireLine),
    /// A line that is bad for this cause, which is told.
    Bad(String),
}

impl LiveLine for HostLine {
    ghost language = { host_language };

    fn opens(line: &[u8]) -> bool {
        sent_alone(line).is_some()
    }

    fn read(alloc: Global, line: &[u8], inside: &[u8]) -> Result<Self, ScriptFault> {
        if inside.is_empty() {
            return read_line(alloc, line);
        }
        match sent_alone(line) {
            Some(opcode) => match read_elements::<Commands>(alloc, opcode, inside) {
                Ok(body) => Ok(HostLine::Give(HostRequest::Send(opcode, body))),
                Err(TextFault::Line(at)) => Err(ScriptFault::Line(at.saturating_add(1))),
                Err(TextFault::Memory) => Err(ScriptFault::Memory),
            },
            None => Err(ScriptFault::Line(1)),
        }
    }

    fn bad(cause: String) -> Self {
        HostLine::Bad(cause)
    }

    fn meanwhile() -> Option<Self> {
        None
    }
}

impl TextLine for HostLine {
    ghost means = { Spec.MeansHostLine };

    ghost begun = { Spec.IsHostBegun };

    fn nothing() -> Self {
        HostLine::Nothing
    }

    fn of_word(word: &str) -> Result<Self, ScriptFault> {
        match word {
            "await" => Ok(HostLine::Await),
            "cancel" => Ok(HostLine::Give(HostRequest::Cancel)),
            "close" => Ok(HostLine::Wire(WireLine::Close)),
            "end" => Ok(HostLine::Nothing),
            "show" => Ok(HostLine::Show),
            _ => Err(ScriptFault::Line(1)),
        }
    }

    fn of_command(
        alloc: Global,
        line: &str,
        command: &str,
        words: &str,
    ) -> Result<Self, ScriptFault> {
        match command {
            "send" => match read_move(alloc, command, words) {
                Ok(Move::Send(opcode, body)) => Ok(HostLine::Give(HostRequest::Send(opcode, body))),
                Ok(_) => Err(ScriptFault::Line(1)),
                Err(fault) => Err(fault),
            },
            "await" => match read_awaited(words) {
                Some(awaited) => Ok(HostLine::AwaitAnswer(awaited)),
                None => Err(ScriptFault::Line(1)),
            },
            _ => match read_wire(alloc, line) {
                Ok(wire) => Ok(HostLine::Wire(wire)),
                Err(fault) => Err(fault),
            },
        }
    }
}

// The answer that is awaited.
fn read_awaited(words: &str) -> Option<AnswerAwaited>
    ensures { MatchOption result ((awaited : AnAnswer) → IsAnswerAwaited words.now awaited → ⊥)
        (IsAnswerAwaited words.now) }
{
    if words == "answer" {
        return Some(AnswerAwaited::Any);
    }
    match aid_named(words) {
        Some(aid) => Some(AnswerAwaited::By(aid)),
        None => None,
    }
}

// The opcode of a line that sends a record and says no more of it.
fn sent_alone(line: &[u8]) -> Option<Opcode>
    ensures { MatchOption result (OpensHostBlock line.now → ⊥)
        (λ opcode. (number : Seq ℕ) × Spec.SendsAlone line.now number opcode) }
{
    let Ok(text) = str::from_utf8(line) else {
        return None;
    };
    let Some(number) = text.strip_prefix("send ") else {
        return None;
    };
    match read_opcode(number) {
        Ok(opcode) => Some(opcode),
        Err(_) => None,
    }
}

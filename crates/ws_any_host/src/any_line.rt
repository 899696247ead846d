//! A line of a script for a host that takes any record.
ghost use Rattle.std.specs.Prelude.{◌≡◌, ◌++◌, [], ◌<◌, ℕ, List as Seq, true, length, codes, IfOk, IfErr, MatchOption};
ghost use Rattle.ws_code.specs.Code.{spelling_of};
ghost use Rattle.ws_extended.specs.ExtendedElements.{extended_rules};
ghost use Rattle.ws_script.specs.lines.LiveScript.{IsBlockFault};
ghost use Rattle.ws_printing.specs.script.ScriptFaults.{IsLineFault, IsNoComment, has_no_blank};
ghost use Rattle.ws_text.specs.Words.{IsHex};
ghost use Rattle.std.specs.Str.Lines.{lines};
ghost use Rattle.ws_any_host.specs.AnyLines as Spec;

use arrayvec::ArrayVec;
use hex::FromHexError;
use std::alloc::{AllocError, Global};
use std::str;
use ws_code::{Aid, Body, List};
use ws_extended::{ExtendedCommands, ExtendedElement};
use ws_record::{Opcode, Record};
use ws_script::{LiveLine, ScriptFault, WireLine, aid_named, read_wire};
use ws_text::{TextFault, read_elements, read_number};

/// A line of a script for a host that takes any record.
#[derive(Drop)]
pub enum AnyLine {
    /// An empty line, a comment, or the end of the lines that belong to the one before.
    Nothing,
    /// The host sends this record.
    Send(Record<u8>),
    /// The host takes what the station sends, until it tells something.
    Await,
    /// The host takes what the station sends, until it tells a record of this key.
    AwaitKey(Aid),
    /// Something is done at the connection itself.
    Wire(WireLine),
    /// A line that is bad for this cause, which is told.
    Bad(String),
}

impl LiveLine for AnyLine {
    ghost language = { Spec.any_language };

    fn opens(line: &[u8]) -> bool {
        sent_alone(line).is_some()
    }

    fn read(alloc: Global, line: &[u8], inside: &[u8]) -> Result<Self, ScriptFault> {
        if inside.is_empty() {
            return read_alone(alloc, line);
        }
        match sent_alone(line) {
            Some(opcode) => match read_words(alloc, opcode, inside) {
                Ok(body) => Ok(AnyLine::Send(sent(opcode, body))),
                Err(TextFault::Line(at)) => Err(ScriptFault::Line(at.saturating_add(1))),
                Err(TextFault::Memory) => Err(ScriptFault::Memory),
            },
            None => Err(ScriptFault::Line(1)),
        }
    }

    fn bad(cause: String) -> Self {
        AnyLine::Bad(cause)
    }

    fn meanwhile() -> Option<Self> {
        None
    }
}

// A record with its flags off.
fn sent(opcode: Opcode, body: Vec<u8>) -> Record<u8>
    ensures { result ≡ Spec.sent opcode body.items }
{
    Record {
        flags: 0,
        opcode,
        body: List::of(body),
    }
}

// The bytes of the elements that the lines of a text say of a record of the opcode.
fn read_words(alloc: Global, opcode: Opcode, text: &[u8]) -> Result<Vec<u8>, TextFault>
    ensures body { IfOk result (λ body. Spec.SayBytes (lines text.now) opcode body.items) }
    ensures fault { IfErr result (Spec.IsWordFault (lines text.now) opcode) }
    ensures only { IfErr result (λ fault. (body : Seq ℕ)
        → Spec.SayBytes (lines text.now) opcode body → fault ≡ TextFault.Memory) }
{
    let elements = read_elements::<ExtendedCommands>(alloc, opcode, text)?;
    spelled(alloc, elements.as_slice()).map_err(|_| TextFault::Memory)
}

// The bytes of elements.
fn spelled(alloc: Global, elements: &[ExtendedElement]) -> Result<Vec<u8>, AllocError>
    ensures { IfOk result (λ bytes. bytes.items ≡ spelling_of extended_rules elements.now) }
{
    let mut bytes = Vec::new(alloc);
    let mut spelling = ArrayVec::new();
    for element in elements {
        ExtendedCommands::spell(element, &mut spelling);
        bytes.extend_from_slice(spelling.as_slice())?;
    }
    Ok(bytes)
}

// A line that no other belongs to.
fn read_alone(alloc: Global, line: &[u8]) -> Result<AnyLine, ScriptFault>
    ensures line { IfOk result (Spec.IsAnyLine line.now []) }
    ensures fault { IfErr result (IsBlockFault Spec.any_language line.now []) }
{
    let Ok(text) = str::from_utf8(line) else {
        return Err(ScriptFault::Line(1));
    };
    read_text(alloc, text)
}

// A line as a text.
fn read_text(alloc: Global, text: &str) -> Result<AnyLine, ScriptFault>
    ensures line { IfOk result (Spec.MeansAnyLine text.now) }
    ensures fault { IfErr result (IsLineFault (Spec.MeansAnyLine text.now)
        (Spec.IsLineBegun text.now)) }
{
    if text.is_empty() {
        return Ok(AnyLine::Nothing);
    }
    if text.strip_prefix('#').is_some() {
        return Ok(AnyLine::Nothing);
    }
    match sent_words(text) {
        Some(words) => Ok(AnyLine::Send(read_sent(alloc, words)?)),
        None => read_word(alloc, text),
    }
}

// What stands behind `send `.
fn sent_words(text: &str) -> Option<&str>
    ensures { MatchOption result ((words : Seq ℕ) → text.now ≡ codes "send " ++ words → ⊥)
        (λ words. text.now ≡ codes "send " ++ words.now) }
{
    text.strip_prefix("send ")
}

// A line that sends nothing.
fn read_word(alloc: Global, line: &str) -> Result<AnyLine, ScriptFault>
    // A line that isn't empty, a comment or a send.
    requires some { 0 < length line.now }
    requires no_comment { IsNoComment line.now }
    requires no_send { (words : Seq ℕ) → line.now ≡ codes "send " ++ words → ⊥ }
    // What it means, or that it means nothing.
    ensures line { IfOk result (Spec.MeansAnyLine line.now) }
    ensures fault { IfErr result (IsLineFault (Spec.MeansAnyLine line.now)
        (Spec.IsLineBegun line.now)) }
{
    if line == "await" {
        return Ok(AnyLine::Await);
    }
    if line == "end" {
        return Ok(AnyLine::Nothing);
    }
    match key_words(line) {
        Some(name) => match aid_named(name) {
            Some(aid) => Ok(AnyLine::AwaitKey(aid)),
            None => Err(ScriptFault::Line(1)),
        },
        None => Ok(AnyLine::Wire(read_wire(alloc, line)?)),
    }
}

// What stands behind `await `.
fn key_words(text: &str) -> Option<&str>
    ensures { MatchOption result ((name : Seq ℕ) → text.now ≡ codes "await " ++ name → ⊥)
        (λ name. text.now ≡ codes "await " ++ name.now) }
{
    text.strip_prefix("await ")
}

// A record to be sent: its opcode, and its body in hex where it has one.
fn read_sent(alloc: Global, words: &str) -> Result<Record<u8>, ScriptFault>
    ensures record_ { IfOk result (Spec.IsSendText words.now) }
    ensures fault { IfErr result
        (IsLineFault (Spec.IsSendText words.now) (Spec.IsAnySendBegun words.now)) }
{
    match split_word(words) {
        None => match read_opcode(words) {
            Some(opcode) => Ok(sent(opcode, Vec::new(alloc))),
            None => Err(ScriptFault::Line(1)),
        },
        Some((number, hex)) => match read_opcode(number) {
            Some(opcode) => Ok(sent(opcode, read_hex(alloc, hex)?)),
            None => Err(ScriptFault::Line(1)),
        },
    }
}

// The word before the first blank, and what stands behind the blank.
fn split_word(text: &str) -> Option<(&str, &str)>
    ensures { MatchOption result (has_no_blank text.now ≡ true)
        (λ parts. (text.now ≡ (parts.0.now ++ codes " ") ++ parts.1.now)
        × (has_no_blank parts.0.now ≡ true)) }
{
    text.split_once(' ')
}

// Bytes in hex, at least one.
fn read_hex(alloc: Global, hex: &str) -> Result<Vec<u8>, ScriptFault>
    ensures body { IfOk result (λ body. IsHex hex.now body.items) }
    ensures fault { IfErr result (IsLineFault (IsHex hex.now) (Unit {0})) }
{
    if hex.is_empty() {
        return Err(ScriptFault::Line(1));
    }
    match hex::decode(alloc, hex) {
        Ok(body) => Ok(body),
        Err(FromHexError::OutOfMemory) => Err(ScriptFault::Memory),
        Err(_) => Err(ScriptFault::Line(1)),
    }
}

// Any opcode, in decimal.
fn read_opcode(word: &str) -> Option<Opcode>
    ensures { MatchOption result ((opcode : Opcode) → Spec.IsOpcode word.now opcode → ⊥)
        (Spec.IsOpcode word.now) }
{
    let number = read_number(word)?;
    if number > 255 {
        return None;
    }
    Opcode::from_byte(number as u8)
}

// The opcode of a line that sends a record and says no more of it.
fn sent_alone(line: &[u8]) -> Option<Opcode>
    ensures { MatchOption result (Spec.OpensAnyBlock line.now → ⊥)
        (λ opcode. (number : Seq ℕ) × Spec.SendsAnyOpcodeAlone line.now number opcode) }
{
    let Ok(text) = str::from_utf8(line) else {
        return None;
    };
    let Some(number) = sent_words(text) else {
        return None;
    };
    read_opcode(number)
}

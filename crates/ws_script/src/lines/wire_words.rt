//! The words of a line for a host that works on the connection itself.
ghost use Rattle.std.specs.Prelude.{◌≡◌, ◌++◌, [], ◌∷◌, ℕ, true, codes, IfOk, IfErr, MatchOption};
ghost use Rattle.ws_record.specs.declared.record.Item.TheVariants.{Telnet as TelnetItem};
ghost use Rattle.ws_telnet.specs.Token.{telnet_spelling};
ghost use Rattle.ws_telnet.specs.declared.token.Telnet.{Telnet as ATelnet};
ghost use Rattle.ws_script.specs.lines.ConnectLines.{IsMilliseconds};
ghost use Rattle.ws_printing.specs.script.ScriptFaults.{IsLineFault, has_no_blank};
ghost use Rattle.ws_script.specs.lines.WireLines as Spec;
ghost use Rattle.ws_text.specs.Words.{IsHex};

use crate::lines::wire_line::WireLine;
use hex::FromHexError;
use std::alloc::Global;
use ws_code::List;
use ws_printing::{ScriptFault, split_word};
use ws_record::{Item, encode};
use ws_stream::{Commands, Element};
use ws_text::{TextFault, read_items, read_number};

/// A line that works on the connection itself.
///
/// # Errors
///
/// `Line(1)` where the line is none of these: `close`; `pause` and a time that `read_milliseconds` takes; `raw` and the
/// hex of a byte or more; `telnet` and a command's words, as items are printed (RFC 854, 855). `Memory` where a growth
/// was refused: the line is such a `telnet`, or a `raw` whose hex may be bad.
pub fn read_wire(alloc: Global, line: &str) -> Result<WireLine, ScriptFault>
    ensures line { IfOk result (Spec.MeansWire line.now) }
    ensures fault { IfErr result (IsLineFault (Spec.MeansWire line.now)
        (Spec.IsWireBegun line.now)) }
{
    match split_word(line) {
        None if line == "close" => Ok(WireLine::Close),
        None => Err(ScriptFault::Line(1)),
        Some((command, words)) => read_command(alloc, line, command, words),
    }
}

// The same of a command with words after its blank.
fn read_command(
    alloc: Global,
    line: &str,
    command: &str,
    words: &str,
) -> Result<WireLine, ScriptFault>
    requires is { line.now ≡ command.now ++ codes " " ++ words.now }
    requires no_blank { has_no_blank command.now ≡ true }
    ensures line { IfOk result (Spec.MeansWire line.now) }
    ensures fault { IfErr result (IsLineFault (Spec.MeansWire line.now)
        (Spec.IsWireBegun line.now)) }
{
    match command {
        "pause" => match read_milliseconds(words) {
            Some(time) => Ok(WireLine::Pause(time)),
            None => Err(ScriptFault::Line(1)),
        },
        "raw" => Ok(WireLine::Raw(read_hex(alloc, words)?)),
        "telnet" => Ok(WireLine::Raw(read_telnet(alloc, line)?)),
        _ => Err(ScriptFault::Line(1)),
    }
}

/// A time in milliseconds from 1 to 3,600,000, an hour, in 1 to 9 decimal digits. `None` of another word.
pub fn read_milliseconds(word: &str) -> Option<u32>
    ensures { MatchOption result ((time : ℕ) → IsMilliseconds word.now time → ⊥)
        (IsMilliseconds word.now) }
{
    match read_number(word) {
        Some(time) if time >= 1 && time <= 3_600_000 => Some(time),
        _ => None,
    }
}

// Bytes in hex, at least one.
fn read_hex(alloc: Global, hex: &str) -> Result<List<u8>, ScriptFault>
    ensures bytes { IfOk result (IsHex hex.now) }
    ensures fault { IfErr result (IsLineFault (IsHex hex.now) (Unit {0})) }
{
    if hex.is_empty() {
        return Err(ScriptFault::Line(1));
    }
    match hex::decode(alloc, hex) {
        Ok(bytes) => Ok(List::of(bytes)),
        Err(FromHexError::OutOfMemory) => Err(ScriptFault::Memory),
        Err(_) => Err(ScriptFault::Line(1)),
    }
}

// The bytes of the Telnet command that a line says.
fn read_telnet(alloc: Global, line: &str) -> Result<List<u8>, ScriptFault>
    ensures bytes { IfOk result (Spec.IsCommandSaid line.now) }
    ensures fault { IfErr result
        (IsLineFault (Spec.IsCommandSaid line.now) (Spec.SaysItems line.now)) }
{
    match read_items::<Commands>(alloc, line.as_bytes()) {
        Ok(items) => spelled_alone(alloc, items.as_slice()),
        Err(TextFault::Line(_)) => Err(ScriptFault::Line(1)),
        Err(TextFault::Memory) => Err(ScriptFault::Memory),
    }
}

// The bytes of the one item that there is, if it is a Telnet command.
fn spelled_alone(alloc: Global, items: &[Item<Element>]) -> Result<List<u8>, ScriptFault>
    ensures bytes { IfOk result (λ bytes. (telnet : ATelnet)
        × (items.now ≡ TelnetItem telnet ∷ []) × (bytes ≡ telnet_spelling telnet)) }
    ensures fault { IfErr result (IsLineFault (λ (telnet : ATelnet).
        items.now ≡ TelnetItem telnet ∷ []) (Unit {0})) }
{
    match items {
        [Item::Telnet(_)] => match encode::<Commands>(alloc, items) {
            Ok(bytes) => Ok(List::of(bytes)),
            Err(_) => Err(ScriptFault::Memory),
        },
        _ => Err(ScriptFault::Line(1)),
    }
}

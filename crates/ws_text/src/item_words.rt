//! A record's header and a Telnet command by their words.
ghost use Rattle.std.specs.Prelude.{ℕ, List, map, MatchOption, ◌≤◌, length};
ghost use Rattle.ws_record.specs.declared.opcode.Opcode.{Opcode as AnOpcode};
ghost use Rattle.ws_telnet.specs.declared.token.Telnet.{Telnet as ATelnet};
ghost use Rattle.ws_text.specs.ElementWords.{AreBytesInWord};
ghost use Rattle.ws_text.specs.TextLines as Spec;

use crate::named_element::{command_named, verb_named};
use crate::words::{read_pair, read_short, read_small};
use arrayvec::ArrayVec;
use ws_record::Opcode;
use ws_telnet::{Sub, Telnet};

/// A record's flags and opcode, by the words behind `record`.
pub(crate) fn read_head(words: &[&str]) -> Option<(u16, Opcode)>
    ensures { MatchOption result
        ((flags : ℕ) (opcode : AnOpcode)
        → Spec.IsHeadText (map (λ w. w.now) words.now) flags opcode → ⊥)
        (λ head. Spec.IsHeadText (map (λ w. w.now) words.now) head.0 head.1) }
{
    match words {
        [name, number] => Some((0, read_opcode(name, number)?)),
        [first, hex, name, number] => {
            if *first != "flags" {
                return None;
            }
            let flags = read_pair(hex)?;
            Some((flags, read_opcode(name, number)?))
        }
        _ => None,
    }
}

// The opcode of a record.
fn read_opcode(name: &str, number: &str) -> Option<Opcode>
    ensures { MatchOption result
        ((opcode : AnOpcode) → Spec.IsOpcodeText name.now number.now opcode → ⊥)
        (Spec.IsOpcodeText name.now number.now) }
{
    if name != "opcode" {
        return None;
    }
    Opcode::from_byte(read_small(number)?)
}

/// The Telnet command of a name and the words behind it.
#[tactic(auto, using(crate::proofs::LineWords::behind_one, crate::proofs::LineWords::unequal_not))]
pub(crate) fn read_telnet(name: &str, words: &[&str]) -> Option<Telnet>
    ensures { MatchOption result
        ((t : ATelnet) → Spec.IsTelnetText name.now (map (λ w. w.now) words.now) t → ⊥)
        (Spec.IsTelnetText name.now (map (λ w. w.now) words.now)) }
{
    match words {
        [] => Some(Telnet::Command(command_named(name)?)),
        [number, more @ ..] => match verb_named(name) {
            Some(verb) => {
                if !more.is_empty() {
                    return None;
                }
                Some(Telnet::Option(verb, read_small(number)?))
            }
            None => {
                if name != "SB" {
                    return None;
                }
                let option = read_small(number)?;
                let bytes = read_bytes(more)?;
                Some(Telnet::Sub(Sub::new(option, bytes.as_slice())?))
            }
        },
    }
}

// The bytes of a subnegotiation, in one word where there are any.
fn read_bytes(words: &[&str]) -> Option<ArrayVec<u8, 64>>
    ensures { MatchOption result
        ((bytes : List ℕ) → AreBytesInWord (map (λ w. w.now) words.now) bytes → length bytes ≤ 64
        → ⊥)
        (λ bytes. AreBytesInWord (map (λ w. w.now) words.now) bytes.items
        × (length bytes.items ≤ 64)) }
{
    match words {
        [] => Some(ArrayVec::new()),
        [hex] => read_short(hex),
        _ => None,
    }
}

//! How elements of a live host's body are spelled (SC30-3533, commands).

ghost use Rattle.std.specs.Prelude.{◌≡◌, ◌∷◌, []};
ghost use Rattle.ws_stream.specs.declared.command_code.TheConstants.{ESCAPE as THE_ESCAPE};
ghost use Rattle.ws_extended.specs.ExtendedElements.{ask_code, ask_field, extended_spelling, query_field};

use crate::{Ask, ExtendedElement};
use arrayvec::ArrayVec;
use ws_code::Body;
use ws_stream::Commands;
use ws_stream::command_code::{self, ESCAPE};

/// The structured field of a 5250 Query: five bytes long, of class D9, type 70, no flag (SC30-3533, 5250 Query
/// command).
pub(crate) const QUERY_FIELD: [u8; 5] = [0x00, 0x05, 0xd9, 0x70, 0x00];

/// Replaces what the list held by an element's spelling.
pub(crate) fn spell(unit: &ExtendedElement, into: &mut ArrayVec<u8, 32>)
    ensures { into.new.items ≡ extended_spelling unit.now }
{
    match unit {
        ExtendedElement::Profile(element) | ExtendedElement::Text(element) => {
            Commands::spell(element, into);
        }
        ExtendedElement::RestoreScreen => spell_command(into, command_code::RESTORE_SCREEN),
        ExtendedElement::Roll(roll) => {
            spell_command(into, command_code::ROLL);
            into.push(roll.control());
            into.push(roll.top());
            into.push(roll.bottom());
        }
        ExtendedElement::WriteError => spell_command(into, command_code::WRITE_ERROR_CODE),
        ExtendedElement::Asks(ask) => spell_ask(*ask, into),
    }
}

// Replaces what the list held by a command of two bytes.
fn spell_command(into: &mut ArrayVec<u8, 32>, code: u8)
    ensures { into.new.items ≡ THE_ESCAPE ∷ code ∷ [] }
{
    into.clear();
    into.push(ESCAPE);
    into.push(code);
}

// Replaces what the list held by a command that asks.
fn spell_ask(ask: Ask, into: &mut ArrayVec<u8, 32>)
    ensures { into.new.items ≡ THE_ESCAPE ∷ ask_code ask ∷ ask_field ask }
{
    match ask {
        Ask::Query => {
            spell_command(into, command_code::WRITE_STRUCTURED_FIELD);
            into.push(0x00);
            into.push(0x05);
            into.push(0xd9);
            into.push(0x70);
            into.push(0x00);
        }
        Ask::SaveScreen => spell_command(into, command_code::SAVE_SCREEN),
        Ask::ReadScreen => spell_command(into, command_code::READ_SCREEN),
        Ask::ReadImmediate => spell_command(into, command_code::READ_IMMEDIATE),
        Ask::ReadImmediateAlternate => {
            spell_command(into, command_code::READ_MDT_IMMEDIATE_ALTERNATE);
        }
    }
}

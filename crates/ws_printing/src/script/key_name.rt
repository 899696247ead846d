//! The names of the keys of the profile.
ghost use Rattle.std.specs.Prelude.{◌≡◌, ◌≤◌, true, Some};
ghost use Rattle.ws_code.specs.Aid.{is_aid};
ghost use Rattle.ws_printing.specs.script.KeyNames as Spec;

use ws_code::Aid;
use ws_keys::Key;

/// The key that has this name in a script, where one has.
pub(crate) fn key_named(name: &str) -> Option<Key>
    ensures { result ≡ Spec.key_named name.now }
{
    plain_key(name)
        .or(answering_key(name))
        .or(function_key(name))
}

/// The AID of the key that has this name in a script, where it answers a read.
pub fn aid_named(name: &str) -> Option<Aid>
    ensures { result ≡ Spec.aid_named name.now }
{
    match key_named(name)? {
        Key::Aid(aid) => Some(aid),
        _ => None,
    }
}

fn plain_key(name: &str) -> Option<Key>
    ensures { result ≡ Spec.look_up name.now Spec.plain_keys }
{
    match name {
        "Left" => Some(Key::Left),
        "Right" => Some(Key::Right),
        "Up" => Some(Key::Up),
        "Down" => Some(Key::Down),
        "Home" => Some(Key::Home),
        "Tab" => Some(Key::Tab),
        "BackTab" => Some(Key::BackTab),
        "FieldExit" => Some(Key::FieldExit),
        "FieldMinus" => Some(Key::FieldMinus),
        "Dup" => Some(Key::Dup),
        "Delete" => Some(Key::Delete),
        "EraseInput" => Some(Key::EraseInput),
        "Attention" => Some(Key::Attention),
        "SystemRequest" => Some(Key::SystemRequest),
        _ => None,
    }
}

fn answering_key(name: &str) -> Option<Key>
    ensures { result ≡ Spec.look_up name.now Spec.answering_keys }
{
    match name {
        "Enter" => aid_key(0xf1),
        "Clear" => aid_key(0xbd),
        "Help" => aid_key(0xf3),
        "RollDown" => aid_key(0xf4),
        "RollUp" => aid_key(0xf5),
        "Print" => aid_key(0xf6),
        "RecordBackspace" => aid_key(0xf8),
        _ => None,
    }
}

// The key of an AID.
fn aid_key(byte: u8) -> Option<Key>
    ensures { is_aid byte ≡ true → result ≡ Some (Key.Aid byte) }
{
    Aid::from_byte(byte).map(Key::Aid)
}

fn function_key(name: &str) -> Option<Key>
    ensures { result ≡ Spec.look_up name.now Spec.function_keys }
{
    match name {
        "F1" => numbered_key(1),
        "F2" => numbered_key(2),
        "F3" => numbered_key(3),
        "F4" => numbered_key(4),
        "F5" => numbered_key(5),
        "F6" => numbered_key(6),
        "F7" => numbered_key(7),
        "F8" => numbered_key(8),
        "F9" => numbered_key(9),
        "F10" => numbered_key(10),
        "F11" => numbered_key(11),
        "F12" => numbered_key(12),
        "F13" => numbered_key(13),
        "F14" => numbered_key(14),
        "F15" => numbered_key(15),
        "F16" => numbered_key(16),
        "F17" => numbered_key(17),
        "F18" => numbered_key(18),
        "F19" => numbered_key(19),
        "F20" => numbered_key(20),
        "F21" => numbered_key(21),
        "F22" => numbered_key(22),
        "F23" => numbered_key(23),
        "F24" => numbered_key(24),
        _ => None,
    }
}

// The function key of a number.
fn numbered_key(number: u8) -> Option<Key>
    ensures { 1 ≤ number → number ≤ 24 → result ≡ Some (Spec.function_key number) }
{
    Aid::function(number).map(Key::Aid)
}

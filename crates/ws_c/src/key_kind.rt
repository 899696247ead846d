//! Keys as C gives them.
ghost use Rattle.std.specs.Prelude.{◌≡◌, IfSome, IfNone};
ghost use Rattle.ws_c.specs.declared.key_kind.KeyKind.{KeyKind as AKind};
ghost use Rattle.ws_keys.specs.declared.key.KeyRefusal.{KeyRefusal as ARefusal};
ghost use Rattle.ws_c.specs.Keys.{IsKeyOf, kind_number, refusal_number as status_number};

use ws_code::Aid;
use ws_keys::{Key, KeyRefusal};

/// The number of Reset, behind those of the profile's keys.
pub(crate) const RESET_KIND: u32 = 18;

/// A key without its character or its attention identification.
#[derive(Clone, Copy)]
pub(crate) enum KeyKind {
    Char,
    Insert,
    Left,
    Right,
    Up,
    Down,
    Home,
    Tab,
    BackTab,
    FieldExit,
    FieldMinus,
    Dup,
    Delete,
    EraseInput,
    Aid,
    Attention,
    SystemRequest,
}

impl KeyKind {
    /// The kind of this number, where there is one.
    pub(crate) fn from_number(number: u32) -> Option<Self>
        ensures some { IfSome result (λ kind. kind_number kind ≡ number) }
        ensures none { IfNone result ((kind : AKind) → kind_number kind ≡ number → ⊥) }
    {
        match number {
            1 => Some(KeyKind::Char),
            2 => Some(KeyKind::Insert),
            3 => Some(KeyKind::Left),
            4 => Some(KeyKind::Right),
            5 => Some(KeyKind::Up),
            6 => Some(KeyKind::Down),
            7 => Some(KeyKind::Home),
            8 => Some(KeyKind::Tab),
            9 => Some(KeyKind::BackTab),
            10 => Some(KeyKind::FieldExit),
            11 => Some(KeyKind::FieldMinus),
            12 => Some(KeyKind::Dup),
            13 => Some(KeyKind::Delete),
            14 => Some(KeyKind::EraseInput),
            15 => Some(KeyKind::Aid),
            16 => Some(KeyKind::Attention),
            17 => Some(KeyKind::SystemRequest),
            _ => None,
        }
    }

    /// The key of this kind and a value: a character by its Unicode scalar value, an attention key by its byte. Of the
    /// other kinds no value is read.
    pub(crate) fn key(self, value: u32) -> Option<Key>
        ensures { IsKeyOf self value result }
    {
        match self {
            KeyKind::Char => Some(Key::Char(char::from_u32(value)?)),
            KeyKind::Insert => Some(Key::Insert(char::from_u32(value)?)),
            KeyKind::Left => Some(Key::Left),
            KeyKind::Right => Some(Key::Right),
            KeyKind::Up => Some(Key::Up),
            KeyKind::Down => Some(Key::Down),
            KeyKind::Home => Some(Key::Home),
            KeyKind::Tab => Some(Key::Tab),
            KeyKind::BackTab => Some(Key::BackTab),
            KeyKind::FieldExit => Some(Key::FieldExit),
            KeyKind::FieldMinus => Some(Key::FieldMinus),
            KeyKind::Dup => Some(Key::Dup),
            KeyKind::Delete => Some(Key::Delete),
            KeyKind::EraseInput => Some(Key::EraseInput),
            KeyKind::Aid => attention_key(value),
            KeyKind::Attention => Some(Key::Attention),
            KeyKind::SystemRequest => Some(Key::SystemRequest),
        }
    }
}

// The attention key of a byte.
fn attention_key(value: u32) -> Option<Key>
    ensures { IsKeyOf AKind.Aid value result }
{
    if value > 255 {
        return None;
    }
    Some(Key::Aid(Aid::from_byte(value as u8)?))
}

/// The refusal of a key of this number, where there is one.
pub(crate) fn refusal_from(number: u8) -> Option<KeyRefusal>
    ensures some { IfSome result (λ refusal. status_number refusal ≡ number) }
    ensures none { IfNone result
        ((refusal : ARefusal) → status_number refusal ≡ number → ⊥) }
{
    match number {
        1 => Some(KeyRefusal::Locked),
        2 => Some(KeyRefusal::Protected),
        3 => Some(KeyRefusal::WrongCharacter),
        4 => Some(KeyRefusal::DupNotAllowed),
        5 => Some(KeyRefusal::NoRoom),
        6 => Some(KeyRefusal::NoReadPending),
        7 => Some(KeyRefusal::MandatoryEnter),
        8 => Some(KeyRefusal::FieldExitRequired),
        9 => Some(KeyRefusal::MandatoryFill),
        _ => None,
    }
}

/// The number of a key's refusal.
pub(crate) fn refusal_number(refusal: KeyRefusal) -> u8
    ensures { result ≡ status_number refusal }
{
    match refusal {
        KeyRefusal::Locked => 1,
        KeyRefusal::Protected => 2,
        KeyRefusal::WrongCharacter => 3,
        KeyRefusal::DupNotAllowed => 4,
        KeyRefusal::NoRoom => 5,
        KeyRefusal::NoReadPending => 6,
        KeyRefusal::MandatoryEnter => 7,
        KeyRefusal::FieldExitRequired => 8,
        KeyRefusal::MandatoryFill => 9,
    }
}

//! What a key is at a code page, at a field's format word, and when it is held up.
ghost use Rattle.std.specs.Prelude.{◌≡◌, ◌&&◌, Some, None, is_some, if◌then◌else◌};
ghost use Rattle.ws_screen.specs.Keyed.{open_field, returns_data};
ghost use Rattle.ws_entry.specs.EntryDisplays.{entered_key as key_there, full_behind};
ghost use Rattle.ws_entry.specs.EntryRules as Spec;

use crate::entering::Entering;
use crate::rules::{
    auto_enter_open, ends_blank_open, enters_full_open, fills_open, lacks_bytes, monocase_open,
    numeric_only_open,
};
use ws_code::{Aid, CodePage, ebcdic};
use ws_extended_station::ExtendedKey;
use ws_keys::{Key, KeyRefusal};
use ws_screen::Screen;

// The capital of a small letter beyond a to z.
fn capital(character: char) -> char
    ensures { result ≡ Spec.capital character }
{
    match character {
        'à'..='ö' | 'ø'..='þ' => char::from((character as u32 - 0x20) as u8),
        _ => character,
    }
}

// The character of code page 037 whose byte a character has on a page.
fn by_page(page: CodePage, character: char) -> char
    ensures { result ≡ Spec.by_page page character }
{
    if page.number() == 37 {
        return character;
    }
    match page.from_char(character) {
        Some(byte) => ebcdic::to_char(byte).unwrap_or('\0'),
        None => '\0',
    }
}

// The character that is entered for one that is typed.
fn as_typed(page: CodePage, screen: &Screen, character: char) -> char
    ensures { result ≡ Spec.as_typed page screen.now character }
{
    if monocase_open(screen) {
        by_page(page, capital(character))
    } else {
        by_page(page, character)
    }
}

/// The key with the character that is entered.
pub(crate) fn entered_key(page: CodePage, screen: &Screen, key: &Key) -> Key
    ensures { result ≡ key_there page screen.now key.now }
{
    match key {
        Key::Char(character) => Key::Char(as_typed(page, screen, *character)),
        Key::Insert(character) => Key::Insert(as_typed(page, screen, *character)),
        _ => *key,
    }
}

// Whether a field that is partly filled holds up a key that leaves the open field.
fn is_leaving_held(screen: &Screen) -> bool
    ensures { result ≡ (is_some (open_field screen.now) && Spec.lacks_bytes screen.now) }
{
    screen.open_field().is_some() && lacks_bytes(screen)
}

// Whether it holds up a key that answers a read.
fn is_answer_held(screen: &Screen, aid: Aid) -> bool
    ensures { result ≡ ((is_some screen.now.pending && returns_data screen.now aid)
        && Spec.lacks_bytes screen.now) }
{
    screen.pending().is_some() && screen.returns_data(aid) && lacks_bytes(screen)
}

// A refusal where it applies.
fn refusal_if(applies: bool, refusal: KeyRefusal) -> Option<KeyRefusal>
    ensures { result ≡ (if applies then Some refusal else None) }
{
    if applies { Some(refusal) } else { None }
}

/// Why a key is held up at an unlocked keyboard, if it is, by whether the open field is full.
pub(crate) fn held_up(screen: &Screen, full: bool, key: &Key) -> Option<KeyRefusal>
    ensures { result ≡ Spec.held_up screen.now full key.now }
{
    match key {
        Key::Char(_) | Key::Insert(_) => refusal_if(full, KeyRefusal::FieldExitRequired),
        Key::FieldExit | Key::FieldMinus => {
            refusal_if(is_leaving_held(screen), KeyRefusal::MandatoryFill)
        }
        Key::Aid(aid) => refusal_if(is_answer_held(screen, *aid), KeyRefusal::MandatoryFill),
        _ => None,
    }
}

/// The key that stands in place of the profile's, where the open field's format word asks for one.
pub(crate) fn entering(screen: &Screen, full: bool, key: &Key) -> Option<Entering>
    ensures { result ≡ Spec.entering screen.now full key.now }
{
    match key {
        Key::Char(character) if fills_open(screen) => Some(Entering::Char(*character)),
        Key::Insert(character) if fills_open(screen) || ends_blank_open(screen) => {
            Some(Entering::Insert(*character))
        }
        Key::FieldExit if full => Some(Entering::FullExit),
        Key::FieldMinus if full => Some(Entering::FullMinus),
        Key::FieldMinus if numeric_only_open(screen) => Some(Entering::Minus),
        _ => None,
    }
}

/// Whether the open field is full after a key that was carried out, by whether it was.
pub(crate) fn full_after(screen: &Screen, full: bool, key: &ExtendedKey) -> bool
    ensures { result ≡ full_behind screen.now full key.now }
{
    match key {
        ExtendedKey::Profile(Key::Char(_) | Key::Insert(_)) => fills_open(screen),
        ExtendedKey::Profile(Key::Aid(_) | Key::Attention | Key::SystemRequest)
        | ExtendedKey::Reset => full,
        ExtendedKey::Profile(_) => false,
    }
}

/// Whether Enter follows a key that was carried out on this screen.
pub(crate) fn is_followed(screen: &Screen, key: &Key) -> bool
    ensures { result ≡ Spec.is_followed screen.now key.now }
{
    match key {
        Key::Char(_) | Key::Insert(_) => enters_full_open(screen),
        Key::FieldExit | Key::FieldMinus | Key::Dup => auto_enter_open(screen),
        _ => false,
    }
}

//! Where keys move the cursor.
ghost use Rattle.std.specs.Prelude.{◌≡◌, ◌<◌, ◌+◌, ◌%◌, ◌∷◌, ◌&&◌, [], Some, None, find, nat_lt, reverse};
ghost use Rattle.ws_screen.specs.Keyed.{cursor_edit};
ghost use Rattle.ws_screen.specs.ScreenParts.{is_non_bypass};
ghost use Rattle.ws_keys.specs.Keys as Spec;

use crate::answer::Answer;
use crate::key::KeyRefusal;
use ws_code::{Address, CELLS};
use ws_screen::{Field, Screen};

/// The place so many cells on, fewer than 1,920; after the last cell comes the first.
pub(crate) fn address_after(from: Address, cells: u16) -> Address
    requires { cells < CELLS }
    ensures { result ≡ (from + cells) % CELLS }
{
    match Address::at((from.place() + cells) % CELLS) {
        Some(to) => to,
        None => from,
    }
}

/// Presses a key that only moves the cursor (SC30-3533, keyboard functions).
///
/// # Errors
///
/// `Locked` where the keyboard is locked; the cursor then stays.
pub(crate) fn move_to(screen: &mut Screen, to: Address) -> Result<Option<Answer>, KeyRefusal>
    ensures { Spec.Does (Spec.locked_refusal screen.old ∷ []) (Some (cursor_edit to)) None
        screen.old screen.new result }
{
    if screen.locked() {
        return Err(KeyRefusal::Locked);
    }
    screen.move_cursor(to);
    Ok(None)
}

/// Where the next field starts: the first after the cursor, else the first of all, of those that keys enter. Without
/// such a field the cursor's place.
pub fn next_field(screen: &Screen) -> Address
    ensures { result ≡ Spec.next_field screen.now }
{
    let fields = screen.fields();
    let cursor = screen.cursor();
    match first_behind(fields.as_slice(), cursor).or(screen.first_non_bypass()) {
        Some(field) => field.start,
        None => cursor,
    }
}

// Whether keys enter a field that starts after a place.
fn opens_behind(field: &Field, at: Address) -> bool
    ensures { result ≡ (is_non_bypass field.now && nat_lt at field.now.start) }
{
    !field.format.bypass() && at.place() < field.start.place()
}

// Whether keys enter a field that starts before a place.
fn opens_before(field: &Field, at: Address) -> bool
    ensures { result ≡ (is_non_bypass field.now && nat_lt field.now.start at) }
{
    !field.format.bypass() && field.start.place() < at.place()
}

// The first field after a place, of those that keys enter.
fn first_behind(fields: &[Field], at: Address) -> Option<Field>
    ensures { result ≡ find (λ f. is_non_bypass f && nat_lt at f.start) fields.now }
{
    fields.iter().copied().find(|field| opens_behind(field, at))
}

/// Where the field to go back to starts: the last before the cursor, else the last of all, of those that keys enter.
/// Without such a field the cursor's place.
#[tactic(auto, using(crate::proofs::SearchLemmas::find_last_is))]
pub(crate) fn field_before(screen: &Screen) -> Address
    ensures { result ≡ Spec.field_before screen.now }
{
    let fields = screen.fields();
    let cursor = screen.cursor();
    match last_before(fields.as_slice(), cursor).or(last_non_bypass(fields.as_slice())) {
        Some(field) => field.start,
        None => cursor,
    }
}

// The last field that starts before a place, of those that keys enter.
fn last_before(fields: &[Field], at: Address) -> Option<Field>
    ensures { result ≡ find (λ f. is_non_bypass f && nat_lt f.start at) (reverse fields.now) }
{
    fields
        .iter()
        .rev()
        .copied()
        .find(|field| opens_before(field, at))
}

// The last field that keys enter.
fn last_non_bypass(fields: &[Field]) -> Option<Field>
    ensures { result ≡ find is_non_bypass (reverse fields.now) }
{
    fields
        .iter()
        .rev()
        .copied()
        .find(|field| !field.format.bypass())
}

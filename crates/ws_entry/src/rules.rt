//! What is to be known of a screen, by the format words of its fields.
ghost use Rattle.std.specs.Prelude.{◌≡◌, ◌≤◌, ◌+◌, ◌==◌, ◌&&◌, not, IfSome, find, slice_index};
ghost use Rattle.std.specs.List.{list_any};
ghost use Rattle.ws_screen.specs.Keyed.{cells_of, open_field};
ghost use Rattle.ws_code.specs.FormatWord.{is_monocase};
ghost use Rattle.ws_keys.specs.Keys.{last_entry_cell, of_open};
ghost use Rattle.ws_entry.specs.EntryRules as Spec;

use crate::leaving::is_signed;
use ws_code::{Address, CELLS, Ffw};
use ws_keys::{KeyRefusal, last_entry_cell};
use ws_screen::{Field, Screen};

/// Whether a key has to leave the field (SC30-3533, field format word, field exit required).
pub(crate) fn field_exit_required(format: Ffw) -> bool
    ensures { result ≡ Spec.is_field_exit_required format }
{
    format.value() / 0x40 % 2 == 1
}

/// Whether Enter follows once the field is full or left (SC30-3533, field format word, auto enter).
pub(crate) fn auto_enter(format: Ffw) -> bool
    ensures { result ≡ Spec.is_auto_enter format }
{
    format.value() / 0x80 % 2 == 1
}

// Whether the field has to be filled.
fn mandatory_fill(format: Ffw) -> bool
    ensures { result ≡ Spec.is_mandatory_fill format }
{
    format.value() % 8 == 7
}

/// Whether the field's shift is numeric only.
pub(crate) fn numeric_only(format: Ffw) -> bool
    ensures { result ≡ Spec.is_numeric_only format }
{
    format.value() / 0x100 % 8 == 3
}

/// The open field, which lies on the screen.
pub(crate) fn opened(screen: &Screen) -> Option<Field>
    ensures value { result ≡ open_field screen.now }
    ensures within { IfSome result (λ f. (1 ≤ f.length) × (f.start + f.length ≤ CELLS)) }
{
    screen.open_field()
}

// Whether the cursor stands in the last cell that characters are entered in.
fn at_end(screen: &Screen, field: &Field) -> bool
    requires { field.now.start + field.now.length ≤ CELLS }
    ensures { result ≡ (screen.now.cursor == last_entry_cell field.now) }
{
    screen.cursor().place() == last_entry_cell(field)
}

/// Whether a character at the cursor makes the field full.
pub(crate) fn fills(screen: &Screen, field: &Field) -> bool
    requires { field.now.start + field.now.length ≤ CELLS }
    ensures { result ≡ Spec.fills screen.now field.now }
{
    field_exit_required(field.format) && at_end(screen, field)
}

// Whether no key has to leave the field, and no sign comes.
fn ends_by_itself(field: &Field) -> bool
    ensures { result ≡ Spec.ends_by_itself field.now }
{
    !field_exit_required(field.format) && !is_signed(field.format)
}

// Whether a field that ends by itself does so with a character at the cursor.
fn ends_here(screen: &Screen, field: &Field) -> bool
    requires { field.now.start + field.now.length ≤ CELLS }
    ensures { result ≡ (Spec.ends_by_itself field.now
        && (screen.now.cursor == last_entry_cell field.now)) }
{
    ends_by_itself(field) && at_end(screen, field)
}

/// Whether Enter follows a character at the cursor.
pub(crate) fn enters_full(screen: &Screen, field: &Field) -> bool
    requires { field.now.start + field.now.length ≤ CELLS }
    ensures { result ≡ Spec.enters_full screen.now field.now }
{
    auto_enter(field.format) && ends_here(screen, field)
}

// The byte of the last cell that characters are entered in.
fn last_byte(screen: &Screen, field: &Field) -> u8
    requires some { 1 ≤ field.now.length }
    requires within { field.now.start + field.now.length ≤ CELLS }
    ensures { result ≡ slice_index screen.now.cells (last_entry_cell field.now) }
{
    let Some(at) = Address::at(last_entry_cell(field)) else {
        unreachable!()
    };
    screen.cell(at)
}

/// Whether that cell holds a blank.
pub(crate) fn ends_blank(screen: &Screen, field: &Field) -> bool
    requires some { 1 ≤ field.now.length }
    requires within { field.now.start + field.now.length ≤ CELLS }
    ensures { result ≡ Spec.ends_blank screen.now field.now }
{
    last_byte(screen, field) == 0x40
}

/// Whether an insert has room.
pub(crate) fn has_room(screen: &Screen, field: &Field) -> bool
    requires some { 1 ≤ field.now.length }
    requires within { field.now.start + field.now.length ≤ CELLS }
    ensures { result ≡ Spec.has_room screen.now field.now }
{
    matches!(last_byte(screen, field), 0x40 | 0)
}

// What the cells of a field hold, of a field that lies on the screen.
fn field_bytes<'a>(screen: &'a Screen, field: &Field) -> &'a [u8]
    ensures { result.now ≡ cells_of screen.now field.now }
{
    screen.known();
    let rest = &screen.cells()[field.start.place() as usize..];
    &rest[..rest.len().min(field.length as usize)]
}

// Whether keys enter the field, and its MDT is on.
fn is_entered(field: &Field) -> bool
    ensures { result ≡ Spec.is_entered field.now }
{
    !field.format.bypass() && field.format.modified()
}

// Whether a byte is 00.
fn has_null(cells: &[u8]) -> bool
    ensures { result ≡ list_any (λ b. b == 0) cells.now }
{
    cells.iter().any(|byte| *byte == 0)
}

// Whether a byte isn't.
fn has_other(cells: &[u8]) -> bool
    ensures { result ≡ list_any (λ b. not (b == 0)) cells.now }
{
    cells.iter().any(|byte| *byte != 0)
}

// Whether bytes are both 00 and others.
fn are_mixed(cells: &[u8]) -> bool
    ensures { result ≡ Spec.are_mixed cells.now }
{
    has_null(cells) && has_other(cells)
}

// Whether a field holds, entered, both 00 and other bytes.
fn is_mixed(screen: &Screen, field: &Field) -> bool
    ensures { result ≡ (Spec.is_entered field.now
        && Spec.are_mixed (cells_of screen.now field.now)) }
{
    is_entered(field) && are_mixed(field_bytes(screen, field))
}

// Whether a field that has to be filled is, in part.
fn is_partly_filled(screen: &Screen, field: &Field) -> bool
    ensures { result ≡ Spec.is_partly_filled screen.now field.now }
{
    mandatory_fill(field.format) && is_mixed(screen, field)
}

/// Whether some field is partly filled.
pub(crate) fn lacks_bytes(screen: &Screen) -> bool
    ensures { result ≡ Spec.lacks_bytes screen.now }
{
    let fields = screen.fields();
    fields
        .as_slice()
        .iter()
        .any(|field| is_partly_filled(screen, field))
}

// Whether a field lacks what a refusal tells.
fn lacks(screen: &Screen, refusal: KeyRefusal, field: &Field) -> bool
    ensures { result ≡ Spec.lacks screen.now refusal field.now }
{
    match refusal {
        KeyRefusal::MandatoryEnter => {
            !field.format.bypass() && field.format.mandatory_enter() && !field.format.modified()
        }
        KeyRefusal::MandatoryFill => is_partly_filled(screen, field),
        _ => false,
    }
}

/// The first field that lacks what a refusal tells.
pub(crate) fn first_lacking(screen: &Screen, refusal: KeyRefusal) -> Option<Field>
    ensures { result ≡ find (Spec.lacks screen.now refusal) screen.now.fields }
{
    let fields = screen.fields();
    fields
        .as_slice()
        .iter()
        .copied()
        .find(|field| lacks(screen, refusal, field))
}

/// Whether a character at the cursor makes the open field full.
pub(crate) fn fills_open(screen: &Screen) -> bool
    ensures { result ≡ of_open screen.now (Spec.fills screen.now) }
{
    match opened(screen) {
        Some(field) => fills(screen, &field),
        None => false,
    }
}

/// Whether the open field ends in a blank.
pub(crate) fn ends_blank_open(screen: &Screen) -> bool
    ensures { result ≡ of_open screen.now (Spec.ends_blank screen.now) }
{
    match opened(screen) {
        Some(field) => ends_blank(screen, &field),
        None => false,
    }
}

/// Whether the open field is entered with a character at the cursor.
pub(crate) fn enters_full_open(screen: &Screen) -> bool
    ensures { result ≡ of_open screen.now (Spec.enters_full screen.now) }
{
    match opened(screen) {
        Some(field) => enters_full(screen, &field),
        None => false,
    }
}

/// Whether the open field is numeric only.
pub(crate) fn numeric_only_open(screen: &Screen) -> bool
    ensures { result ≡ of_open screen.now (λ f. Spec.is_numeric_only f.format) }
{
    match opened(screen) {
        Some(field) => numeric_only(field.format),
        None => false,
    }
}

/// Whether Enter follows where a key leaves the open field.
pub(crate) fn auto_enter_open(screen: &Screen) -> bool
    ensures { result ≡ of_open screen.now (λ f. Spec.is_auto_enter f.format) }
{
    match opened(screen) {
        Some(field) => auto_enter(field.format),
        None => false,
    }
}

/// Whether the open field is monocase.
pub(crate) fn monocase_open(screen: &Screen) -> bool
    ensures { result ≡ of_open screen.now (λ f. is_monocase f.format) }
{
    match opened(screen) {
        Some(field) => field.format.monocase(),
        None => false,
    }
}

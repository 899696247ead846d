//! The text of a field.
ghost use Rattle.std.specs.Prelude.{◌≡◌, ◌≤◌, ◌<◌, ◌+◌, ◌^◌, ◌⊎◌, length, map, slice_get, take, if◌then◌else◌};
ghost use Rattle.std.specs.Str.{encode_utf8_all};
ghost use Rattle.ws_code.specs.declared.address.TheConstants.{CELLS as ALL_CELLS};
ghost use Rattle.ws_keys.specs.Contents.{is_null, without_trailing_nulls};
ghost use Rattle.ws_c.specs.Calls.{HasStatus, TellsOnly, crossed, told_length};
ghost use Rattle.ws_c.specs.Held.{OnScreen};
ghost use Rattle.ws_c.specs.Texts.{IsFieldTextTold, IsTextTold, char_shown, field_text};

use crate::buffer::put_front;
use crate::held::{given, on_held, on_screen, on_stations};
use crate::page_text::seen;
use crate::{Handle, Machine, Status, Told};
use arrayvec::ArrayString;
use std::alloc::Global;
use ws_code::CodePage;
use ws_screen::{Attribute, Field, Screen};

// How many bytes the characters of all cells have at most.
const TEXT_ROOM: usize = 5760;

// The end of what isn't 00, one cell later.
fn end_after(end: usize, at: usize, byte: u8) -> usize
    requires { at + 1 < 2 ^ 64 }
    ensures { result ≡ (if is_null byte then end else at + 1) }
{
    if byte == 0 { end } else { at + 1 }
}

// How many cells stand before the 00s at their end.
fn text_end(cells: &[u8]) -> usize
    ensures within { result ≤ length cells.now }
    ensures value { without_trailing_nulls cells.now ≡ take result cells.now }
{
    let mut end = 0;
    for (at, byte) in cells.iter().enumerate() {
        end = end_after(end, at, *byte);
    }
    end
}

// The character that a byte shows, on a page or as the screen has it.
fn character_of(page: Option<CodePage>, byte: u8) -> char
    ensures value { result ≡ char_shown page byte }
    ensures short { (result < 256) ⊎ (result ≡ 0x20AC) }
{
    let shown = Attribute::default().show(byte).0;
    match page {
        Some(page) => seen(page, &shown, byte),
        None => shown.character,
    }
}

// The characters that the cells of a field show.
fn characters(page: Option<CodePage>, cells: &[u8]) -> ArrayString<TEXT_ROOM>
    requires { length cells.now ≤ ALL_CELLS }
    ensures { result.bytes ≡ encode_utf8_all (map (char_shown page) cells.now) }
{
    let mut text = ArrayString::new();
    for byte in cells {
        text.push(character_of(page, *byte));
    }
    text
}

// The text of a field.
fn text_of(screen: &Screen, page: Option<CodePage>, field: &Field) -> ArrayString<TEXT_ROOM>
    requires { field.now.start + field.now.length ≤ ALL_CELLS }
    ensures { result.bytes ≡ field_text page screen.now field.now }
{
    let cells = screen.field_cells(field);
    characters(page, &cells[..text_end(cells)])
}

// Puts a text into a buffer that has room for it.
fn put_text(text: &[u8], buffer: &mut [u8], told: &mut Told) -> Status
    ensures { IsTextTold text.now (crossed buffer.old buffer.new result told.new) }
{
    *told = Told::length(text.len());
    if buffer.len() < text.len() {
        return Status::NoRoom;
    }
    put_front(buffer, text);
    Status::Done
}

// Puts the text of a field into a buffer that has room for it.
fn put_field(
    screen: &Screen,
    page: Option<CodePage>,
    field: &Field,
    buffer: &mut [u8],
    told: &mut Told,
) -> Status
    requires { field.now.start + field.now.length ≤ ALL_CELLS }
    ensures { IsTextTold (field_text page screen.now field.now)
        (crossed buffer.old buffer.new result told.new) }
{
    let text = text_of(screen, page, field);
    put_text(text.as_str().as_bytes(), buffer, told)
}

// The field of an index.
fn field_at(screen: &Screen, index: usize) -> Option<Field>
    ensures { result ≡ slice_get screen.now.fields index }
{
    let fields = screen.fields();
    fields.as_slice().get(index).copied()
}

// Tells the text of a field by its index.
fn tell_text(
    screen: &Screen,
    page: Option<CodePage>,
    index: usize,
    buffer: &mut [u8],
    told: &mut Told,
) -> Status
    requires { told.old ≡ told_length 0 }
    ensures { IsFieldTextTold (slice_get screen.now.fields index) page screen.now
        (crossed buffer.old buffer.new result told.new) }
{
    screen.known();
    match field_at(screen, index) {
        Some(field) => put_field(screen, page, &field, buffer, told),
        None => Status::BadArgument,
    }
}

/// Puts the text of a station's field into a buffer as UTF-8, by its index in the order of the fields' starts, from 0:
/// what its cells show up to the last that isn't 00, whether or not an attribute hides it. `told` says how many bytes. A
/// station that has an identity shows the characters of its code page, another those of 037.
///
/// `NoRoom` where the buffer has fewer bytes than that: `told` says so all the same, and no byte is put.
/// `BadArgument` where there is no such field, `NothingHeld` where the handle holds no station; `told` is then zero.
#[unsafe(no_mangle)]
pub extern "C" fn ws_c_station_field_text(
    alloc: Global,
    handle: &mut Handle,
    index: usize,
    buffer: &mut [u8],
    told: &mut Told,
) -> u32
    ensures { HasStatus result (λ status.
        let call = crossed buffer.old buffer.new status told.new in
        OnScreen handle.old.owned.value handle.new.owned.value
        (λ page screen. IsFieldTextTold (slice_get screen.fields index) page screen call)
        (TellsOnly call Status.NothingHeld (told_length 0))) }
{
    *told = Told::length(0);
    on_screen!(
        alloc,
        handle,
        |screen, page| tell_text(screen, page, index, buffer, told),
        number
    )
}

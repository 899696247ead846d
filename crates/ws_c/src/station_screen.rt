//! The screen of a station.
ghost use Rattle.std.specs.Prelude.{◌≡◌, ◌≤◌, ◌<◌, length, slice_get, slice_index};
ghost use Rattle.ws_code.specs.Address.{IsRowAndColumn, place_of};
ghost use Rattle.ws_screen.specs.ScreenParts.{holds as holds_cell};
ghost use Rattle.ws_c.specs.Calls.{HasStatus, IsFieldTold, beside_screen, field_index as index_of, holds_front, no_field, no_state, place_refused, read_number as pending_number, reason_refused, row_number as number_of_row, row_text, state_of_screen, state_told, status_number, told_length};
ghost use Rattle.ws_extended.specs.ErrorLine.{IsRow};
ghost use Rattle.ws_c.specs.HeldStations.{extended_state_told};
ghost use Rattle.ws_c.specs.LiveParts.{live_state_told, record_place, record_reason};
ghost use Rattle.ws_c.specs.Held.{HoldsNone, OnScreen, OnStations};

use crate::buffer::put_front;
use crate::held::{given, on_held, on_screen, on_stations};
use crate::page_text::row_on;
use crate::{FieldTold, Handle, LiveStation, Machine, NO_FIELD, StateTold, Status, Told};
use std::alloc::Global;
use ws_code::{Address, CodePage, Reason};
use ws_extended_station::ExtendedStation;
use ws_lasting::RefusedRecord;
use ws_screen::{Field, ReadKind, Screen};
use ws_session::Station;

// How many bytes 80 characters of any page have at most.
const ROW_ROOM: usize = 240;

// The number of a pending read.
fn read_number(pending: Option<ReadKind>) -> u8
    ensures { result ≡ pending_number pending }
{
    match pending {
        None => 0,
        Some(ReadKind::Input) => 1,
        Some(ReadKind::Mdt) => 2,
        Some(ReadKind::MdtAlternate) => 3,
    }
}

// The place and the reason's number of a refused byte.
fn refused_at(refused: Option<(u64, Reason)>) -> (u64, u8)
    ensures place { result.0 ≡ place_refused refused }
    ensures reason { result.1 ≡ reason_refused refused }
{
    match refused {
        Some((place, reason)) => (place, reason.number()),
        None => (0, 0),
    }
}

// Whether a field holds a cell.
fn holds(field: &Field, at: Address) -> bool
    ensures { result ≡ holds_cell field.now at }
{
    let place = at.place() as u32;
    let start = field.start.place() as u32;
    start <= place && place < start + field.length as u32
}

/// The index of the field that holds a cell.
pub(crate) fn field_index(fields: &[Field], at: Address) -> u16
    requires { length fields.now ≤ 256 }
    ensures { result ≡ index_of fields.now at }
{
    for (index, field) in fields.iter().enumerate() {
        if holds(field, at) {
            return index as u16;
        }
    }
    NO_FIELD
}

/// What is told of a screen and of what stands beside it.
pub(crate) fn state_with(
    screen: &Screen,
    records: u64,
    alarms: u64,
    refused: Option<(u64, Reason)>,
    is_ready: bool,
    error_row: u8,
) -> StateTold
    ensures { result ≡ state_of_screen screen.now
        (beside_screen records alarms refused is_ready error_row) }
{
    screen.known();
    let cursor = screen.cursor();
    let fields = screen.fields();
    let (refused_place, refused_reason) = refused_at(refused);
    StateTold {
        records,
        refused_place,
        alarms,
        refused_records: 0,
        record_place: 0,
        names_refused: 0,
        field_count: fields.len() as u16,
        cursor_field: field_index(fields.as_slice(), cursor),
        cursor_row: cursor.row(),
        cursor_column: cursor.col(),
        pending_read: read_number(screen.pending()),
        refused_reason,
        is_ready,
        is_locked: screen.locked(),
        is_message_lit: screen.message(),
        is_blinking: screen.blink(),
        error_row,
        record_reason: 0,
        is_full: false,
    }
}

fn tell_state(station: &Station, state: &mut StateTold) -> Status
    ensures status { result ≡ Status.Done }
    ensures state { state.new ≡ state_told station.now }
{
    *state = state_with(
        station.screen(),
        station.records(),
        station.alarms(),
        station.refused(),
        station.is_ready(),
        0,
    );
    Status::Done
}

// The number of a row, where there is one.
fn row_number(row: Option<u8>) -> u8
    ensures { result ≡ number_of_row row }
{
    match row {
        Some(row) => row,
        None => 0,
    }
}

fn tell_extended_state(station: &ExtendedStation, state: &mut StateTold) -> Status
    ensures status { result ≡ Status.Done }
    ensures state { state.new ≡ extended_state_told station.now }
{
    *state = state_with(
        station.screen(),
        station.records(),
        station.alarms(),
        station.refused(),
        station.is_ready(),
        row_number(station.display().error_row()),
    );
    Status::Done
}

// The place and the reason's number of a refused record.
fn record_refused(refused: Option<RefusedRecord>) -> (u64, u8)
    ensures place { result.0 ≡ record_place refused }
    ensures reason { result.1 ≡ record_reason refused }
{
    match refused {
        Some(record) => (record.place, record.reason.number()),
        None => (0, 0),
    }
}

fn tell_live_state(station: &LiveStation, state: &mut StateTold) -> Status
    ensures status { result ≡ Status.Done }
    ensures state { state.new ≡ live_state_told station.now }
{
    let display = station.display();
    *state = state_with(
        station.screen(),
        station.records(),
        station.alarms(),
        station.refused(),
        station.is_ready(),
        row_number(display.extended().error_row()),
    );
    let (place, reason) = record_refused(station.last_refusal());
    state.refused_records = station.refused_records();
    state.record_place = place;
    state.record_reason = reason;
    state.names_refused = station.names_refused();
    state.is_full = display.is_full();
    Status::Done
}

/// Tells whether records are allowed, a refused byte, the records that were carried out, the cursor and its field, the
/// keyboard's lock, the lights, the pending read, the number of fields and the row of an error.
///
/// `NothingHeld` where the handle holds no station; `state` is then zero.
#[unsafe(no_mangle)]
pub extern "C" fn ws_c_station_state(
    alloc: Global,
    handle: &mut Handle,
    state: &mut StateTold,
) -> u32
    ensures { HasStatus result (λ status. OnStations handle.old.owned.value handle.new.owned.value
        (λ old new. (new ≡ old) × (status ≡ Status.Done) × (state.new ≡ state_told old.end))
        (λ old new. (new ≡ old) × (status ≡ Status.Done)
        × (state.new ≡ extended_state_told old.end))
        (λ old new. (new ≡ old) × (status ≡ Status.Done) × (state.new ≡ live_state_told old.end))
        (HoldsNone status (state.new ≡ no_state))) }
{
    *state = StateTold::nothing();
    on_stations!(
        alloc,
        handle,
        |station| tell_state(&station.end, state),
        |held| tell_extended_state(&held.end, state),
        |live| tell_live_state(&live.end, state),
        number
    )
}

fn tell_cell(screen: &Screen, at: Address, byte: &mut u8) -> Status
    ensures status { result ≡ Status.Done }
    ensures byte { byte.new ≡ slice_index screen.now.cells at }
{
    *byte = screen.cell(at);
    Status::Done
}

/// Tells a cell's byte, in code page 037 or an attribute; rows and columns count from 1.
///
/// `BadArgument` at a cell off the screen, `NothingHeld` where the handle holds no station; `byte` is then 0.
#[unsafe(no_mangle)]
pub extern "C" fn ws_c_station_cell(
    alloc: Global,
    handle: &mut Handle,
    row: u8,
    column: u8,
    byte: &mut u8,
) -> u32
    ensures cell { IsRowAndColumn row column → HasStatus result (λ status.
        OnScreen handle.old.owned.value handle.new.owned.value
        (λ page screen. (status ≡ Status.Done)
        × (byte.new ≡ slice_index screen.cells (place_of row column)))
        (HoldsNone status (byte.new ≡ 0))) }
    ensures off { ¬ IsRowAndColumn row column → (result ≡ status_number Status.BadArgument)
        × (handle.new ≡ handle.old) × (byte.new ≡ 0) }
{
    *byte = 0;
    let Some(at) = Address::new(row, column) else {
        return Status::BadArgument.number();
    };
    on_screen!(
        alloc,
        handle,
        |screen, _page| tell_cell(screen, at, byte),
        number
    )
}

// Puts what a row shows, on a page or as the screen has it.
fn put_row(screen: &Screen, page: Option<CodePage>, row: u8, text: &mut [u8]) -> usize
    requires row { IsRow row }
    requires room { ROW_ROOM ≤ length text.old }
    ensures length { result ≡ length (row_text page screen.now row) }
    ensures text { text.new ≡ holds_front (row_text page screen.now row) text.old }
{
    match page {
        Some(page) => put_front(text, row_on(page, screen, row).as_str().as_bytes()),
        None => put_front(text, screen.line(row).as_str().as_bytes()),
    }
}

fn tell_row(
    screen: &Screen,
    page: Option<CodePage>,
    row: u8,
    text: &mut [u8],
    told: &mut Told,
) -> Status
    // A row of the screen, and room for its text.
    requires row { IsRow row }
    requires room { ROW_ROOM ≤ length text.old }
    // The row's text and its length; the rest of the room stays.
    ensures status { result ≡ Status.Done }
    ensures told { told.new ≡ told_length (length (row_text page screen.now row)) }
    ensures text { text.new ≡ holds_front (row_text page screen.now row) text.old }
{
    *told = Told::length(put_row(screen, page, row, text));
    Status::Done
}

/// Puts a row, 1 to 24, into a buffer as UTF-8: 80 characters, at most 240 bytes. `told` says how many bytes. A station
/// that has an identity shows the characters of its code page, another those of 037.
///
/// `BadArgument` at another row, `NoRoom` where the buffer has fewer than 240 bytes, `NothingHeld` where the handle
/// holds no station; the buffer is then as it was, and `told` zero.
#[unsafe(no_mangle)]
pub extern "C" fn ws_c_station_row(
    alloc: Global,
    handle: &mut Handle,
    row: u8,
    text: &mut [u8],
    told: &mut Told,
) -> u32
    ensures row { IsRow row → ROW_ROOM ≤ length text.old → HasStatus result (λ status.
        OnScreen handle.old.owned.value handle.new.owned.value (λ page screen.
        (status ≡ Status.Done) × (text.new ≡ holds_front (row_text page screen row) text.old)
        × (told.new ≡ told_length (length (row_text page screen row))))
        (HoldsNone status ((text.new ≡ text.old) × (told.new ≡ told_length 0)))) }
    ensures off { ¬ IsRow row → (result ≡ status_number Status.BadArgument)
        × (handle.new ≡ handle.old) × (text.new ≡ text.old) × (told.new ≡ told_length 0) }
    ensures room { IsRow row → length text.old < ROW_ROOM
        → (result ≡ status_number Status.NoRoom)
        × (handle.new ≡ handle.old) × (text.new ≡ text.old) × (told.new ≡ told_length 0) }
{
    *told = Told::length(0);
    if row < 1 || row > 24 {
        return Status::BadArgument.number();
    }
    if text.len() < ROW_ROOM {
        return Status::NoRoom.number();
    }
    on_screen!(
        alloc,
        handle,
        |screen, page| tell_row(screen, page, row, text, told),
        number
    )
}

/// Tells a field by its index.
pub(crate) fn tell_field(screen: &Screen, index: usize, field: &mut FieldTold) -> Status
    requires { field.old ≡ no_field }
    ensures { IsFieldTold (slice_get screen.now.fields index) result field.new }
{
    let fields = screen.fields();
    if index >= fields.len() {
        return Status::BadArgument;
    }
    *field = FieldTold::of(&fields.as_slice()[index]);
    Status::Done
}

/// Tells a field, by its index in the order of the fields' starts, from 0.
///
/// `BadArgument` where there is no such field, `NothingHeld` where the handle holds no station; `field` is then zero.
#[unsafe(no_mangle)]
pub extern "C" fn ws_c_station_field(
    alloc: Global,
    handle: &mut Handle,
    index: usize,
    field: &mut FieldTold,
) -> u32
    ensures { HasStatus result (λ status. OnScreen handle.old.owned.value handle.new.owned.value
        (λ page screen. IsFieldTold (slice_get screen.fields index) status field.new)
        (HoldsNone status (field.new ≡ no_field))) }
{
    *field = FieldTold::nothing();
    on_screen!(
        alloc,
        handle,
        |screen, _page| tell_field(screen, index, field),
        number
    )
}

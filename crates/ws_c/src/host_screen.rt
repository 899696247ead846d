//! The screen that a host's end keeps: what the station's is by what was sent.
ghost use Rattle.std.specs.Prelude.{◌≡◌, ◌≤◌, ◌<◌, ◌++◌, drop, length, slice_get};
ghost use Rattle.ws_c.specs.Calls.{HasStatus, IsFieldTold, no_field, no_state, status_number};
ghost use Rattle.ws_c.specs.Cells.{AreRowNumbers, cells_in, rows_told};
ghost use Rattle.ws_c.specs.Held.{HoldsNone, OnHost};
ghost use Rattle.ws_c.specs.HostScreens.{host_state_told};

use crate::held::{given, on_held, on_host};
use crate::station_cells::tell_rows;
use crate::station_screen::{state_with, tell_field};
use crate::{CellTold, FieldTold, Handle, Machine, StateTold, Status};
use std::alloc::Global;
use ws_code::COLUMNS;
use ws_session::HostEnd;

// What of the kept screen is no cell and no field.
fn state_of(host: &HostEnd) -> StateTold
    ensures { result ≡ host_state_told host.now }
{
    state_with(host.screen(), 0, 0, host.refused(), host.is_ready(), 0)
}

fn tell_state(host: &HostEnd, state: &mut StateTold) -> Status
    ensures status { result ≡ Status.Done }
    ensures state { state.new ≡ host_state_told host.now }
{
    *state = state_of(host);
    Status::Done
}

/// Tells whether records are allowed, a refused byte, and of the kept screen the cursor and its field, the keyboard's
/// lock, the lights, the read that is asked and the number of fields. No record is counted.
///
/// `NothingHeld` where the handle holds no host; `state` is then zero.
#[unsafe(no_mangle)]
pub extern "C" fn ws_c_host_state(alloc: Global, handle: &mut Handle, state: &mut StateTold) -> u32
    ensures { HasStatus result (λ status. OnHost handle.old.owned.value handle.new.owned.value
        (λ old new. (new ≡ old) × (status ≡ Status.Done) × (state.new ≡ host_state_told old.held.end))
        (HoldsNone status (state.new ≡ no_state))) }
{
    *state = StateTold::nothing();
    on_host!(
        alloc,
        handle,
        |host| tell_state(&host.held.end, state),
        number
    )
}

/// Tells the cells of rows of the kept screen, as `ws_c_station_cells` does of a station's.
///
/// `BadArgument` where the rows aren't 1 to 24 in order, `NoRoom` where there are fewer than 80 cells for each row,
/// `NothingHeld` where the handle holds no host; no cell is then set.
#[unsafe(no_mangle)]
pub extern "C" fn ws_c_host_cells(
    alloc: Global,
    handle: &mut Handle,
    first_row: u8,
    last_row: u8,
    cells: &mut [CellTold],
) -> u32
    ensures cells { AreRowNumbers first_row last_row
        → cells_in first_row last_row ≤ length cells.old → HasStatus result (λ status.
        OnHost handle.old.owned.value handle.new.owned.value
        (λ old new. (new ≡ old) × (status ≡ Status.Done)
        × (cells.new ≡ rows_told old.held.end.reacts.screen first_row last_row
        ++ drop (cells_in first_row last_row) cells.old))
        (HoldsNone status (cells.new ≡ cells.old))) }
    ensures off { ¬ AreRowNumbers first_row last_row
        → (result ≡ status_number Status.BadArgument)
        × (handle.new ≡ handle.old) × (cells.new ≡ cells.old) }
    ensures room { AreRowNumbers first_row last_row
        → length cells.old < cells_in first_row last_row → (result ≡ status_number Status.NoRoom)
        × (handle.new ≡ handle.old) × (cells.new ≡ cells.old) }
{
    if first_row < 1 || last_row < first_row || last_row > 24 {
        return Status::BadArgument.number();
    }
    if cells.len() < (last_row as usize + 1 - first_row as usize) * COLUMNS as usize {
        return Status::NoRoom.number();
    }
    on_host!(
        alloc,
        handle,
        |host| tell_rows(host.held.end.screen(), first_row, last_row, cells),
        number
    )
}

/// Tells a field of the kept screen, by its index in the order of the fields' starts, from 0.
///
/// `BadArgument` where there is no such field, `NothingHeld` where the handle holds no host; `field` is then zero.
#[unsafe(no_mangle)]
pub extern "C" fn ws_c_host_field(
    alloc: Global,
    handle: &mut Handle,
    index: usize,
    field: &mut FieldTold,
) -> u32
    ensures { HasStatus result (λ status. OnHost handle.old.owned.value handle.new.owned.value
        (λ old new. (new ≡ old)
        × IsFieldTold (slice_get old.held.end.reacts.screen.fields index) status field.new)
        (HoldsNone status (field.new ≡ no_field))) }
{
    *field = FieldTold::nothing();
    on_host!(
        alloc,
        handle,
        |host| tell_field(host.held.end.screen(), index, field),
        number
    )
}

//! Strokes at a station: several keys by one call.
ghost use Rattle.std.specs.Prelude.{◌≡◌, ◌∷◌, [], replicate};
ghost use Rattle.ws_code.specs.Address.{IsRowAndColumn, place_of};
ghost use Rattle.ws_keys.specs.Strokes.{keys_of};
ghost use Rattle.ws_c.specs.declared.stroke.Stroke.TheVariants as Struck;
ghost use Rattle.ws_c.specs.Calls.{HasStatus, returned, status_number, told_length};
ghost use Rattle.ws_c.specs.Held.{HoldsNone, OnStations};
ghost use Rattle.ws_end.specs.station.Displays.{on_display as on};
ghost use Rattle.ws_c.specs.Strokes.{AreKeyed, AreStruck, IsExtendedStroke, IsProfileStroke, IsStroke, IsStrokeTold, keys_of_stroke};
ghost use Rattle.ws_c.specs.LiveStations.{IsLiveStroke};

use crate::held::{given, on_held, on_stations};
use crate::held_end::{keep_nothing, rest};
use crate::live_end::{self, forget};
use crate::station_keys::tell_fault;
use crate::station_kind::{PressesKeys, TakesKeys};
use crate::stroke::Stroke;
use crate::{Handle, HeldEnd, HeldLive, Machine, Status, Told};
use std::alloc::Global;
use ws_code::Address;
use ws_keys::{Key, KeyRun};
use ws_session::{KeyFault, StationOn};

// Presses a key of a station, and forgets what it sends: the keys of a stroke send nothing.
fn press_once<S: PressesKeys>(station: &mut S, key: Key) -> Result<(), KeyFault>
    ensures { AreKeyed S.presses (key ∷ []) station.old station.new result }
{
    match station.press_key(key) {
        Ok(_) => Ok(()),
        Err(fault) => Err(fault),
    }
}

// Presses a key so often, up to the first time that it is refused.
fn press_run<S: PressesKeys>(station: &mut S, run: &KeyRun) -> Result<(), KeyFault>
    ensures { AreKeyed S.presses (replicate run.now.times run.now.key)
        station.old station.new result }
{
    for _ in 0..run.times {
        press_once(station, run.key)?;
    }
    Ok(())
}

// Presses keys one after another, up to the first that is refused.
fn press_all<S: PressesKeys>(station: &mut S, runs: &[KeyRun]) -> Result<(), KeyFault>
    ensures { AreKeyed S.presses (keys_of runs.now) station.old station.new result }
{
    for run in runs {
        press_run(station, run)?;
    }
    Ok(())
}

// What a stroke crosses as.
fn tell_stroke(pressed: Result<(), KeyFault>, told: &mut Told) -> Status
    ensures { IsStrokeTold pressed result told.new }
{
    match pressed {
        Ok(()) => {
            *told = Told::length(0);
            Status::Done
        }
        Err(fault) => tell_fault(fault, told),
    }
}

// Presses the keys of a stroke at a station.
fn press_stroke<S: PressesKeys>(station: &mut S, stroke: Stroke, told: &mut Told) -> Status
    ensures { AreStruck S.presses (keys_of_stroke stroke (S.shown station.old))
        (returned result told.new) station.old station.new }
{
    let keys = stroke.keys(station.seen());
    let pressed = press_all(station, keys.as_slice());
    tell_stroke(pressed, told)
}

// Presses them at one that C holds, unless something waits.
fn press_held<D: TakesKeys>(
    held: &mut HeldEnd<StationOn<D>, D::Reply>,
    stroke: Stroke,
    told: &mut Told,
) -> Status
    requires { told.old ≡ told_length 0 }
    ensures { IsStroke (on D.Commands.rules D.does) D.among stroke
        (returned result told.new) held.old held.new }
{
    if rest(held).is_empty() {
        let status = press_stroke(&mut held.end, stroke, told);
        keep_nothing(held);
        return status;
    }
    Status::NoRoom
}

// The same at one that no refused record ends.
fn press_live(held: &mut HeldLive, stroke: Stroke, told: &mut Told) -> Status
    requires { told.old ≡ told_length 0 }
    ensures { IsLiveStroke stroke (returned result told.new) held.old held.new }
{
    if !live_end::rest(held).is_empty() {
        return Status::NoRoom;
    }
    let status = press_stroke(&mut held.end, stroke, told);
    forget(held);
    status
}

// Presses the keys of a stroke at the station that a handle holds.
fn press(alloc: Global, handle: &mut Handle, stroke: Stroke, told: &mut Told) -> Status
    requires { told.old ≡ told_length 0 }
    ensures { OnStations handle.old.owned.value handle.new.owned.value
        (IsProfileStroke stroke (returned result told.new))
        (IsExtendedStroke stroke (returned result told.new))
        (IsLiveStroke stroke (returned result told.new))
        (HoldsNone result (told.new ≡ told_length 0)) }
{
    on_stations!(
        alloc,
        handle,
        |held| press_held(held, stroke, told),
        |held| press_held(held, stroke, told),
        |held| press_live(held, stroke, told)
    )
}

/// Brings the cursor of a station to a cell by its keys, Up or Down and then Left or Right; rows and columns count
/// from 1.
///
/// Where a key is refused, those behind it aren't pressed, and it is told as that of `ws_c_station_key`: `KeyRefused`
/// with the number of the refusal, `Failed` after a refused byte. `BadArgument` at a cell off the screen,
/// `NothingHeld` where the handle holds no station, `NoRoom` where something waits that a station as live hosts use it
/// wrote: no key is then pressed. But for a refusal `told` is zero.
#[unsafe(no_mangle)]
pub extern "C" fn ws_c_station_move_cursor(
    alloc: Global,
    handle: &mut Handle,
    row: u8,
    column: u8,
    told: &mut Told,
) -> u32
    ensures moved { IsRowAndColumn row column → HasStatus result (λ status.
        OnStations handle.old.owned.value handle.new.owned.value
        (IsProfileStroke (Struck.MoveTo (place_of row column)) (returned status told.new))
        (IsExtendedStroke (Struck.MoveTo (place_of row column)) (returned status told.new))
        (IsLiveStroke (Struck.MoveTo (place_of row column)) (returned status told.new))
        (HoldsNone status (told.new ≡ told_length 0))) }
    ensures off { ¬ IsRowAndColumn row column → (result ≡ status_number Status.BadArgument)
        × (handle.new ≡ handle.old) × (told.new ≡ told_length 0) }
{
    *told = Told::length(0);
    match Address::new(row, column) {
        Some(cell) => press(alloc, handle, Stroke::MoveTo(cell), told).number(),
        None => Status::BadArgument.number(),
    }
}

/// New Line at a station: the keys that bring the cursor to the first cell of the first field that keys enter and that
/// begins in a row below, from the top again where none does; where keys enter no field, to column 1 of the row below.
///
/// Told as `ws_c_station_move_cursor` tells it.
#[unsafe(no_mangle)]
pub extern "C" fn ws_c_station_new_line(alloc: Global, handle: &mut Handle, told: &mut Told) -> u32
    ensures { HasStatus result (λ status. OnStations handle.old.owned.value handle.new.owned.value
        (IsProfileStroke Struck.NewLine (returned status told.new))
        (IsExtendedStroke Struck.NewLine (returned status told.new))
        (IsLiveStroke Struck.NewLine (returned status told.new))
        (HoldsNone status (told.new ≡ told_length 0))) }
{
    *told = Told::length(0);
    press(alloc, handle, Stroke::NewLine, told).number()
}

/// Erase EOF at a station: the keys that make the open field's cells from the cursor on 00, of a signed numeric field
/// the sign too, and leave the cursor; where the cursor stands in no field that keys enter, a Delete that is refused.
///
/// Told as `ws_c_station_move_cursor` tells it.
#[unsafe(no_mangle)]
pub extern "C" fn ws_c_station_erase_eof(alloc: Global, handle: &mut Handle, told: &mut Told) -> u32
    ensures { HasStatus result (λ status. OnStations handle.old.owned.value handle.new.owned.value
        (IsProfileStroke Struck.EraseEof (returned status told.new))
        (IsExtendedStroke Struck.EraseEof (returned status told.new))
        (IsLiveStroke Struck.EraseEof (returned status told.new))
        (HoldsNone status (told.new ≡ told_length 0))) }
{
    *told = Told::length(0);
    press(alloc, handle, Stroke::EraseEof, told).number()
}

//! Display stations: what C makes, frees and pushes bytes into.
ghost use Rattle.std.specs.Prelude.{◌≡◌, ◌≤◌, ◌<◌, length};
ghost use Rattle.ws_end.specs.station.Displays.{on_display as on};
ghost use Rattle.ws_extended_station.specs.ExtendedDisplays.{on_extended};
ghost use Rattle.ws_c.specs.Calls.{HasStatus, TellsOnly, crossed, status_number};
ghost use Rattle.ws_c.specs.Held.{IsStationFreed, OnStations};
ghost use Rattle.ws_c.specs.HeldStations.{IsBriefPush, IsExtendedNew, IsStationNew, IsStationPush};
ghost use Rattle.ws_c.specs.LiveStations.{IsLivePush};
ghost use Rattle.ws_c.specs.Pushes.{nothing_pushed};

use crate::held::{given, on_held, on_stations};
use crate::held_end::holding;
use crate::live_end::push_pieces;
use crate::push::push_all;
use crate::{Handle, HeldEnd, Machine, PushedTold, REPLY_ROOM, Status};
use std::alloc::Global;
use ws_extended_station::{ExtendedReply, ExtendedStation};
use ws_nego::TerminalType;
use ws_session::{Reply, Station, StationDisplay, StationOn};

// Makes a station of the terminal, unless the handle holds something.
fn make_station(alloc: Global, handle: &mut Handle, name: &[u8]) -> Status
    ensures { IsStationNew name.now handle.old.owned.value handle.new.owned.value result }
{
    if let Some(held) = handle.take(alloc) {
        handle.put(held);
        return Status::InUse;
    }
    let Some(terminal) = TerminalType::from_name(name) else {
        return Status::BadArgument;
    };
    match Box::new(alloc, holding(Station::new(terminal))) {
        Ok(held) => handle.hold(alloc, Machine::Station(held)),
        Err(_) => Status::NoMemory,
    }
}

/// Makes a station of the terminal's name (RFC 1091, letters in either case).
///
/// `InUse` where the handle holds something, `BadArgument` where no terminal has the name, and `NoMemory`. The handle
/// then stays as it is.
#[unsafe(no_mangle)]
pub extern "C" fn ws_c_station_new(alloc: Global, handle: &mut Handle, name: &[u8]) -> u32
    ensures made { HasStatus result (λ status.
        IsStationNew name.now handle.old.owned.value handle.new.owned.value status) }
{
    make_station(alloc, handle, name).number()
}

// Makes a station as live hosts use it, unless the handle holds something.
fn make_extended(alloc: Global, handle: &mut Handle, name: &[u8]) -> Status
    ensures { IsExtendedNew name.now handle.old.owned.value handle.new.owned.value result }
{
    if let Some(held) = handle.take(alloc) {
        handle.put(held);
        return Status::InUse;
    }
    let Some(terminal) = TerminalType::from_name(name) else {
        return Status::BadArgument;
    };
    match Box::new(alloc, holding(ExtendedStation::new(terminal))) {
        Ok(held) => handle.hold(alloc, Machine::ExtendedStation(held)),
        Err(_) => Status::NoMemory,
    }
}

/// Makes a station as live hosts use it, with the outcomes of `ws_c_station_new`.
#[unsafe(no_mangle)]
pub extern "C" fn ws_c_station_new_extended(alloc: Global, handle: &mut Handle, name: &[u8]) -> u32
    ensures made { HasStatus result (λ status.
        IsExtendedNew name.now handle.old.owned.value handle.new.owned.value status) }
{
    make_extended(alloc, handle, name).number()
}

/// Frees the station that the handle holds. It then holds nothing. Another handle stays as it is.
#[unsafe(no_mangle)]
pub extern "C" fn ws_c_station_free(alloc: Global, handle: &mut Handle)
    ensures { IsStationFreed handle.old.owned.value handle.new.owned.value }
{
    if let Some(owned) = handle.take(alloc) {
        match &*owned {
            Machine::Station(_) | Machine::ExtendedStation(_) | Machine::LiveStation(_) => {
                drop(owned)
            }
            _ => handle.put(owned),
        }
    }
}

// Pushes bytes into a station of either kind.
fn push_held<D: StationDisplay>(
    held: &mut HeldEnd<StationOn<D>, D::Reply>,
    bytes: &[u8],
    buffer: &mut [u8],
    told: &mut PushedTold,
) -> Status
    requires { told.old ≡ nothing_pushed }
    ensures { IsStationPush (on D.Commands.rules D.does) bytes.now
        (crossed buffer.old buffer.new result told.new) held.old held.new }
{
    push_all(held, bytes, buffer, told, false).0
}

// Pushes bytes into a station of the profile, whose replies are short: none waits.
fn push_station(
    held: &mut HeldEnd<Station, Reply>,
    bytes: &[u8],
    buffer: &mut [u8],
    told: &mut PushedTold,
) -> Status
    requires { told.old ≡ nothing_pushed }
    ensures { IsBriefPush bytes.now
        (crossed buffer.old buffer.new result told.new) held.old held.new }
{
    let status = push_held(held, bytes, buffer, told);
    let _brief = held.reply.as_slice();
    status
}

/// Pushes bytes into a station, one after another: `buffer` gets what the station writes, and `told` how many bytes were
/// taken and written, and why one is refused.
///
/// `Refused` at a byte that the station refuses, `Failed` from then on; `NothingHeld` where the handle holds no
/// station; `BadArgument` where the buffer has fewer than 17 bytes, whatever the handle holds; `NoRoom` where fewer are
/// left of it before a byte, and where it has no room for all that the station writes: what was taken was taken. The
/// rest waits: the next call begins with it, and takes no byte before all of it has gone out.
#[unsafe(no_mangle)]
pub extern "C" fn ws_c_station_push(
    alloc: Global,
    handle: &mut Handle,
    bytes: &[u8],
    buffer: &mut [u8],
    told: &mut PushedTold,
) -> u32
    ensures room { length buffer.old < REPLY_ROOM → (result ≡ status_number Status.BadArgument)
        × (handle.new ≡ handle.old) × (buffer.new ≡ buffer.old) × (told.new ≡ nothing_pushed) }
    ensures pushed { REPLY_ROOM ≤ length buffer.old → HasStatus result (λ status.
        let call = crossed buffer.old buffer.new status told.new in
        OnStations handle.old.owned.value handle.new.owned.value (IsBriefPush bytes.now call)
        (IsStationPush on_extended bytes.now call) (IsLivePush bytes.now call)
        (TellsOnly call Status.NothingHeld nothing_pushed)) }
{
    *told = PushedTold::nothing();
    if buffer.len() < REPLY_ROOM {
        return Status::BadArgument.number();
    }
    on_stations!(
        alloc,
        handle,
        |station| push_station(station, bytes, buffer, told),
        |held| push_held(held, bytes, buffer, told),
        |live| push_pieces(live, bytes, buffer, told),
        number
    )
}

//! Keys of a station.
ghost use Rattle.std.specs.Prelude.{◌≡◌, ◌≤◌, ◌<◌, Option, length};
ghost use Rattle.ws_extended_station.specs.ExtendedDisplays.{on_extended};
ghost use Rattle.ws_extended_station.specs.declared.extended_key.ExtendedKey.{ExtendedKey as AnyKey};
ghost use Rattle.ws_end.specs.station.Displays.{on_display as on};
ghost use Rattle.ws_c.specs.Calls.{HasStatus, IsKeyFaultTold, IsKeyTold, TellsOnly, crossed, status_number, told_length};
ghost use Rattle.ws_c.specs.Held.{OnStations};
ghost use Rattle.ws_c.specs.HeldStations.{IsAnyKeyFrom, IsPress, IsPressFrom, IsProfilePress, status_without};
ghost use Rattle.ws_c.specs.Keys.{IsKeyFrom, IsKeyOfKind};
ghost use Rattle.ws_c.specs.LiveStations.{IsLivePress};

use crate::buffer::put_front;
use crate::held::on_held;
use crate::held_end::{keep_nothing, rest};
use crate::key_kind::{KeyKind, RESET_KIND, refusal_number};
use crate::live_keys::press_live;
use crate::wire::answer_bytes;
use crate::{Handle, HeldEnd, Machine, Status, Told};
use std::alloc::Global;
use ws_extended_station::ExtendedKey;
use ws_keys::{Answer, Key};
use ws_session::{KeyFault, Reply, Station, StationDisplay, StationOn};

/// The status of a key's fault, and what is told of it.
pub(crate) fn tell_fault(fault: KeyFault, told: &mut Told) -> Status
    ensures { IsKeyFaultTold fault result told.new }
{
    *told = Told::length(0);
    match fault {
        KeyFault::Failed => Status::Failed,
        KeyFault::NotReady => Status::NotReady,
        KeyFault::Key(refusal) => {
            told.reason = refusal_number(refusal);
            Status::KeyRefused
        }
    }
}

/// What a key crosses as.
#[inline(always)]
pub(crate) fn tell_key(
    keyed: Result<Option<Answer>, KeyFault>,
    buffer: &mut [u8],
    told: &mut Told,
) -> Status
    requires { 5404 ≤ length buffer.old }
    ensures { IsKeyTold keyed (crossed buffer.old buffer.new result told.new) }
{
    match keyed {
        Ok(None) => {
            *told = Told::length(0);
            Status::Done
        }
        Ok(Some(answer)) => {
            let bytes = answer_bytes(&answer);
            *told = Told::length(put_front(buffer, bytes.as_slice()));
            Status::Done
        }
        Err(fault) => tell_fault(fault, told),
    }
}

// The key of a kind, where there is one, and a value.
fn key_of(named: Option<KeyKind>, value: u32) -> Option<Key>
    ensures { IsKeyOfKind named value result }
{
    match named {
        Some(named) => named.key(value),
        None => None,
    }
}

// The key of a kind's number and a value.
fn key_from(kind: u32, value: u32) -> Option<Key>
    ensures { IsKeyFrom kind value result }
{
    let named = KeyKind::from_number(kind);
    key_of(named, value)
}

// The same of all keys. Stations of the profile have no Reset.
fn any_key_from(kind: u32, value: u32) -> Option<ExtendedKey>
    ensures { IsAnyKeyFrom kind value result }
{
    if kind == RESET_KIND {
        return Some(ExtendedKey::Reset);
    }
    match key_from(kind, value) {
        Some(key) => Some(ExtendedKey::Profile(key)),
        None => None,
    }
}

// Presses a key of a station, unless something waits: its record could get between the bytes of another. It has a frame
// of its own, for the stack's sake.
#[inline(never)]
fn press_key<D: StationDisplay>(
    held: &mut HeldEnd<StationOn<D>, D::Reply>,
    key: D::Key,
    buffer: &mut [u8],
    told: &mut Told,
) -> Status
    requires room { 5404 ≤ length buffer.old }
    requires untold { told.old ≡ told_length 0 }
    ensures { IsPress (on D.Commands.rules D.does) key
        (crossed buffer.old buffer.new result told.new) held.old held.new }
{
    if !rest(held).is_empty() {
        return Status::NoRoom;
    }
    let keyed = held.end.key(key);
    keep_nothing(held);
    tell_key(keyed, buffer, told)
}

// Presses a key at a station of the profile, which has no Reset.
fn press_at_profile(
    held: &mut HeldEnd<Station, Reply>,
    key: ExtendedKey,
    buffer: &mut [u8],
    told: &mut Told,
) -> Status
    requires room { 5404 ≤ length buffer.old }
    requires untold { told.old ≡ told_length 0 }
    ensures { IsProfilePress key (crossed buffer.old buffer.new result told.new) held.old held.new }
{
    let ExtendedKey::Profile(key) = key else {
        return Status::BadArgument;
    };
    press_key(held, key, buffer, told)
}

// The status of a key where a handle holds no station.
fn absent_status(key: &ExtendedKey) -> Status
    ensures { result ≡ status_without key.now }
{
    match key {
        ExtendedKey::Profile(_) => Status::NothingHeld,
        ExtendedKey::Reset => Status::BadArgument,
    }
}

// Presses a key at the station that a handle holds.
fn press(
    alloc: Global,
    handle: &mut Handle,
    key: ExtendedKey,
    buffer: &mut [u8],
    told: &mut Told,
) -> Status
    requires room { 5404 ≤ length buffer.old }
    requires untold { told.old ≡ told_length 0 }
    ensures { let call = crossed buffer.old buffer.new result told.new in
        OnStations handle.old.owned.value handle.new.owned.value (IsProfilePress key call)
        (IsPress on_extended key call) (IsLivePress key call)
        (TellsOnly call (status_without key) (told_length 0)) }
{
    let absent = absent_status(&key);
    on_held!(
        alloc,
        handle,
        absent,
        Station(held) => press_at_profile(held, key, buffer, told),
        ExtendedStation(held) => press_key(held, key, buffer, told),
        LiveStation(held) => press_live(held, key, buffer, told)
    )
}

// Presses the key of a kind's number and a value, where there is one.
fn press_from(
    alloc: Global,
    handle: &mut Handle,
    key: Option<ExtendedKey>,
    buffer: &mut [u8],
    told: &mut Told,
) -> Status
    requires room { 5404 ≤ length buffer.old }
    requires untold { told.old ≡ told_length 0 }
    ensures { IsPressFrom key handle.old.owned.value handle.new.owned.value
        (crossed buffer.old buffer.new result told.new) }
{
    match key {
        Some(key) => press(alloc, handle, key, buffer, told),
        None => Status::BadArgument,
    }
}

/// Presses a key of a station: `buffer` gets the record that it sends, and `told` how many bytes that is, or the number
/// of the refusal.
///
/// `KeyRefused` where the keyboard or the field refuses the key, `NotReady` at a key that sends while records aren't
/// allowed, `Failed` after a refused byte; the station is then unchanged. `NothingHeld` where the handle holds no
/// station. `NoRoom` where the buffer has fewer than 5,404 bytes, and where something waits that a station as live hosts
/// use it wrote; `BadArgument` where no key has the kind and the value, as Reset where the handle holds no such station.
/// Where nothing is told, `told` is zero.
#[unsafe(no_mangle)]
pub extern "C" fn ws_c_station_key(
    alloc: Global,
    handle: &mut Handle,
    kind: u32,
    value: u32,
    buffer: &mut [u8],
    told: &mut Told,
) -> u32
    ensures room { length buffer.old < 5404 → (result ≡ status_number Status.NoRoom)
        × (handle.new ≡ handle.old) × (buffer.new ≡ buffer.old) × (told.new ≡ told_length 0) }
    ensures pressed { 5404 ≤ length buffer.old → (key : Option AnyKey)
        × IsAnyKeyFrom kind value key × HasStatus result (λ status.
        IsPressFrom key handle.old.owned.value handle.new.owned.value
        (crossed buffer.old buffer.new status told.new)) }
{
    *told = Told::length(0);
    if buffer.len() < 5404 {
        return Status::NoRoom.number();
    }
    let key = any_key_from(kind, value);
    press_from(alloc, handle, key, buffer, told).number()
}

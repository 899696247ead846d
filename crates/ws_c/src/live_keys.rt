//! Keys of a station that no refused record ends.
ghost use Rattle.std.specs.Prelude.{◌≡◌, ◌≤◌, ◌<◌, ◌+◌, ◌^◌, Option, length};
ghost use Rattle.ws_keys.specs.declared.key.KeyRefusal.{KeyRefusal as ARefusal};
ghost use Rattle.ws_extended_station.specs.declared.extended_key.ExtendedKey.TheVariants.{Profile as ProfileKey};
ghost use Rattle.ws_keys.specs.declared.key.Key.TheVariants.{Aid as AidKey};
ghost use Rattle.ws_entry.specs.Following.{follows as follows_key, on_entry};
ghost use Rattle.ws_lasting.specs.Footings.{AtLasting};
ghost use Rattle.ws_c.specs.Calls.{HasStatus, crossed, told_length};
ghost use Rattle.ws_c.specs.Held.{HoldsNone, OnLive};
ghost use Rattle.ws_c.specs.LiveParts.{IsTypedOn, page_told, live_screen};
ghost use Rattle.ws_c.specs.LiveStations.{IsEnterHeard, IsLiveKey, IsLivePress, IsMissingTold, IsRefusalFrom, is_live_keyed, missing_index};

use crate::held::{given, on_held};
use crate::key_kind::refusal_from;
use crate::live_end::{forget, rest};
use crate::live_station::page_of;
use crate::station_keys::tell_key;
use crate::station_screen::field_index;
use crate::{Handle, HeldLive, LiveStation, Machine, NO_FIELD, Status, Told};
use std::alloc::Global;
use ws_code::{Aid, CodePage};
use ws_entry::TypedKey;
use ws_extended_station::ExtendedKey;
use ws_keys::{Answer, Key, KeyRefusal};
use ws_session::KeyFault;

// The Enter key.
fn enter() -> ExtendedKey
    ensures { result ≡ ProfileKey (AidKey 0xF1) }
{
    match Aid::from_byte(0xf1) {
        Some(aid) => ExtendedKey::Profile(Key::Aid(aid)),
        None => unreachable!(),
    }
}

// The page by which a character becomes a byte: 037 where the station has none.
fn typing_page(station: &LiveStation) -> CodePage
    ensures { IsTypedOn (page_told station.now) result }
{
    match page_of(station) {
        Some(page) => page,
        None => CodePage::default(),
    }
}

/// Takes a key of the profile alone, typed on that page, and gives what it sends.
pub(crate) fn press_alone(
    station: &mut LiveStation,
    pressed: Key,
) -> Result<Option<Answer>, KeyFault>
    ensures { is_live_keyed station.old station.new pressed result }
{
    let page = typing_page(station);
    let key = ExtendedKey::Profile(pressed);
    station.key(TypedKey { key, page })
}

// Whether Enter follows a key.
fn is_followed(station: &LiveStation, key: &ExtendedKey) -> bool
    ensures { result ≡ follows_key (live_screen station.now) key.now }
{
    match key {
        ExtendedKey::Profile(key) => station.display().is_followed(key),
        ExtendedKey::Reset => false,
    }
}

// Presses Enter, and tells nothing where it is refused.
fn follow(station: &mut LiveStation, page: CodePage) -> Option<Answer>
    ensures { AtLasting on_entry station.old (λ at. station.old.taken + 1 < 2 ^ 64
        → IsEnterHeard station.old station.new at page result) }
{
    match station.key(TypedKey { key: enter(), page }) {
        Ok(sent) => sent,
        Err(_) => None,
    }
}

/// Takes a key, and gives what it sends; and Enter after it, where the open field's format word asks for that and the
/// key isn't refused (SC30-3533, field format word, auto enter). That Enter is refused isn't told.
pub(crate) fn press_with_enter(
    station: &mut LiveStation,
    key: ExtendedKey,
) -> Result<Option<Answer>, KeyFault>
    ensures { IsLiveKey station.old station.new key result }
{
    let page = typing_page(station);
    let follows = is_followed(station, &key);
    match station.key(TypedKey { key, page }) {
        Ok(sent) => {
            if follows {
                Ok(follow(station, page))
            } else {
                Ok(sent)
            }
        }
        Err(fault) => Err(fault),
    }
}

/// Presses a key at one that C holds, unless something waits.
#[inline(never)]
pub(crate) fn press_live(
    held: &mut HeldLive,
    key: ExtendedKey,
    buffer: &mut [u8],
    told: &mut Told,
) -> Status
    requires room { 5404 ≤ length buffer.old }
    requires untold { told.old ≡ told_length 0 }
    ensures { IsLivePress key (crossed buffer.old buffer.new result told.new) held.old held.new }
{
    if !rest(held).is_empty() {
        return Status::NoRoom;
    }
    let keyed = press_with_enter(&mut held.end, key);
    forget(held);
    tell_key(keyed, buffer, told)
}

// The index of the field that a refusal names.
#[tactic(auto, using(crate::proofs::NameLaws::found_some, crate::proofs::NameLaws::found_none))]
fn missing_field(station: &LiveStation, refusal: KeyRefusal) -> u16
    ensures { result ≡ missing_index (live_screen station.now) refusal }
{
    match station.display().missing(refusal) {
        Some(start) => {
            let screen = station.screen();
            screen.known();
            let fields = screen.fields();
            field_index(fields.as_slice(), start)
        }
        None => NO_FIELD,
    }
}

// Tells the field that a refusal names.
fn tell_missing(station: &LiveStation, refusal: Option<KeyRefusal>, field: &mut u16) -> Status
    requires { field.old ≡ 0 }
    ensures { IsMissingTold refusal station.now result field.new }
{
    match refusal {
        Some(refusal) => {
            *field = missing_field(station, refusal);
            Status::Done
        }
        None => Status::BadArgument,
    }
}

/// Tells the index of the first field, by its start, for which a key is refused so that has this number: that has to be
/// entered or filled. `NO_FIELD` where there is none, as at every other refusal.
///
/// `BadArgument` where no refusal has the number, `NothingHeld` where the handle holds no such station; `field` is then
/// 0.
#[unsafe(no_mangle)]
pub extern "C" fn ws_c_station_missing(
    alloc: Global,
    handle: &mut Handle,
    refusal: u8,
    field: &mut u16,
) -> u32
    ensures { (named : Option ARefusal) × IsRefusalFrom refusal named
        × HasStatus result (λ status.
        OnLive handle.old.owned.value handle.new.owned.value
        (λ old new. (new ≡ old) × IsMissingTold named old.end status field.new)
        (HoldsNone status (field.new ≡ 0))) }
{
    *field = 0;
    let refusal = refusal_from(refusal);
    on_held!(
        alloc,
        handle,
        given!(crate::held::nothing_held(), number),
        LiveStation(held) => given!(tell_missing(&held.end, refusal, field), number)
    )
}

//! Keys at a station, with the Enter that follows some.
ghost use Rattle.std.specs.Prelude.{◌≡◌, ◌<◌, ◌+◌, ◌^◌, Err, length, IsSome, OnErr};
ghost use Rattle.ws_end.specs.declared.station.key_fault.KeyFault.{KeyFault as AKeyFault};
ghost use Rattle.ws_end.specs.station.Stations.{AtStationOn};
ghost use Rattle.ws_extended_station.specs.declared.extended_key.ExtendedKey.TheVariants.{Profile as ProfileKey};
ghost use Rattle.ws_entry.specs.Following.{IsPressedWithEnter, IsEntered, on_entry};

use crate::{EntryStation, TypedKey};
use ws_code::{Aid, CodePage};
use ws_extended_station::ExtendedKey;
use ws_keys::{Answer, Key};
use ws_session::KeyFault;

// The identification of the Enter key.
fn enter() -> Aid
    ensures { result ≡ 0xF1 }
{
    match Aid::from_byte(0xf1) {
        Some(aid) => aid,
        None => unreachable!(),
    }
}

// Presses Enter, and tells nothing where it is refused.
fn follow(station: &mut EntryStation, page: CodePage) -> Option<Answer>
    ensures { AtStationOn on_entry station.old (λ bytes items state.
        length bytes + 1 < 2 ^ 64
        → IsEntered station.old station.new bytes items state page result) }
{
    let enter = Key::Aid(enter());
    let key = ExtendedKey::Profile(enter);
    match station.key(TypedKey { key, page }) {
        Ok(sent) => sent,
        Err(_) => None,
    }
}

// Takes a key of the profile, and Enter after it where it follows.
fn press_profile(
    station: &mut EntryStation,
    pressed: Key,
    page: CodePage,
) -> Result<Option<Answer>, KeyFault>
    ensures pressed { AtStationOn on_entry station.old (λ bytes items state.
        length bytes + 1 < 2 ^ 64 → IsPressedWithEnter station.old station.new bytes items state
        (record { key = ProfileKey pressed; page = page }) result) }
    ensures full { station.old.live.taken + 1 ≡ 2 ^ 64 → result ≡ Err AKeyFault.Failed }
    ensures failed { IsSome station.old.ended → result ≡ Err AKeyFault.Failed }
    ensures same { OnErr result (station.new ≡ station.old) }
{
    let follows = station.display().is_followed(&pressed);
    let key = ExtendedKey::Profile(pressed);
    match station.key(TypedKey { key, page }) {
        Ok(sent) => {
            if follows {
                Ok(follow(station, page))
            } else {
                Ok(sent)
            }
        }
        Err(fault) => Err(fault),
    }
}

/// Takes a key, and gives what it sends; and Enter after it, where the open field's format word asks for that and the
/// key isn't refused (SC30-3533, field format word, auto enter). That Enter is refused isn't told: the key has acted
/// all the same (own choice).
///
/// # Errors
///
/// As `StationOn::key`; the station is then unchanged.
pub fn press_key(station: &mut EntryStation, key: TypedKey) -> Result<Option<Answer>, KeyFault>
    ensures pressed { AtStationOn on_entry station.old (λ bytes items state.
        length bytes + 1 < 2 ^ 64
        → IsPressedWithEnter station.old station.new bytes items state key result) }
    ensures full { station.old.live.taken + 1 ≡ 2 ^ 64 → result ≡ Err AKeyFault.Failed }
    ensures failed { IsSome station.old.ended → result ≡ Err AKeyFault.Failed }
    ensures same { OnErr result (station.new ≡ station.old) }
{
    let TypedKey { key, page } = key;
    match key {
        ExtendedKey::Profile(key) => press_profile(station, key, page),
        ExtendedKey::Reset => station.key(TypedKey {
            key: ExtendedKey::Reset,
            page,
        }),
    }
}

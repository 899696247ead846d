//! Display stations that no refused record ends: what C makes of a name and an identity.
ghost use Rattle.std.specs.Prelude.{◌≡◌, ◌⊎◌, ℕ, List, Option, Some, None, IfErr, IfOk};
ghost use Rattle.ws_code.specs.CodePage.{page_number};
ghost use Rattle.ws_code.specs.declared.code_page.CodePage.{CodePage as APage};
ghost use Rattle.ws_nego.specs.Terminal.{terminal_named};
ghost use Rattle.ws_identity.specs.Names.{is_device_name, is_keyboard_type};
ghost use Rattle.ws_end.specs.station.StationTransitions.{new_state_on};
ghost use Rattle.ws_entry.specs.Following.{on_entry};
ghost use Rattle.ws_lasting.specs.Footings.{StandsAt};
ghost use Rattle.ws_lasting.specs.Lasting.{new_footing};
ghost use Rattle.ws_c.specs.Calls.{HasStatus};
ghost use Rattle.ws_c.specs.LiveParts.{page_told};
ghost use Rattle.ws_c.specs.LiveStations.{IsFreshLive, IsGivenIdentity, IsLiveNew, IsNameOf, NamesNone, environ_of, identity_names};

use crate::{Handle, HeldEnd, Machine, Status};
use std::alloc::Global;
use ws_code::CodePage;
use ws_end::End;
use ws_entry::EntryDisplay;
use ws_identity::{DeviceName, Identity, Keyboard};
use ws_lasting::LastingStation;
use ws_nego::TerminalType;

/// A display station that no refused record ends, and that acts on what format words ask of an operator.
pub(crate) type LiveStation = LastingStation<EntryDisplay>;

/// One that C holds.
pub(crate) type HeldLive = HeldEnd<LiveStation, Option<<LiveStation as End>::Reply>>;

/// Its code page, where it has an identity.
pub(crate) fn page_of(station: &LiveStation) -> Option<CodePage>
    ensures { result ≡ page_told station.now }
{
    match station.identity() {
        Some(identity) => Some(identity.page),
        None => None,
    }
}

// An identity as C names it: by a code page's number, 0 where there is none, and names, of no byte where there is none.
#[derive(Clone, Copy)]
struct Named<'a> {
    page: u16,
    device: &'a [u8],
    keyboard: &'a [u8],
}

// The device's name of these bytes; of none no name.
#[tactic(auto, using(crate::proofs::NameLaws::named_none, crate::proofs::NameLaws::named_some, crate::proofs::NameLaws::named_not))]
fn device_of(name: &[u8]) -> Result<Option<DeviceName>, Status>
    ensures named { IfOk result (λ device. IsNameOf is_device_name name.now device) }
    ensures none { IfErr result (λ status. (status ≡ Status.BadArgument)
        × ((device : Option (List ℕ)) → IsNameOf is_device_name name.now device → ⊥)) }
{
    if name.is_empty() {
        return Ok(None);
    }
    match DeviceName::new(name) {
        Some(device) => Ok(Some(device)),
        None => Err(Status::BadArgument),
    }
}

// The keyboard's type of these bytes; of none that of the code page.
#[tactic(auto, using(crate::proofs::NameLaws::named_none, crate::proofs::NameLaws::named_some, crate::proofs::NameLaws::named_not))]
fn keyboard_of(name: &[u8]) -> Result<Option<Keyboard>, Status>
    ensures named { IfOk result (λ keyboard. IsNameOf is_keyboard_type name.now keyboard) }
    ensures none { IfErr result (λ status. (status ≡ Status.BadArgument)
        × ((keyboard : Option (List ℕ)) → IsNameOf is_keyboard_type name.now keyboard → ⊥)) }
{
    if name.is_empty() {
        return Ok(None);
    }
    match Keyboard::new(name) {
        Some(keyboard) => Ok(Some(keyboard)),
        None => Err(Status::BadArgument),
    }
}

// The code page of a number.
fn page_from(number: u16) -> Result<CodePage, Status>
    ensures named { IfOk result (λ page. page_number page ≡ number) }
    ensures none { IfErr result (λ status. (status ≡ Status.BadArgument)
        × ((page : APage) → page_number page ≡ number → ⊥)) }
{
    match CodePage::from_number(number) {
        Some(page) => Ok(page),
        None => Err(Status::BadArgument),
    }
}

impl Named<'_> {
    // The identity; none where it has no code page.
    fn identity(&self) -> Result<Option<Identity>, Status>
        ensures named { IfOk result (λ identity.
            IsGivenIdentity
            (identity_names self.now.page self.now.device.now self.now.keyboard.now) identity) }
        ensures none { IfErr result (λ status. (status ≡ Status.BadArgument)
            × NamesNone
            (identity_names self.now.page self.now.device.now self.now.keyboard.now)) }
    {
        if self.page == 0 {
            return Ok(None);
        }
        let page = page_from(self.page)?;
        let device = device_of(self.device)?;
        let keyboard = keyboard_of(self.keyboard)?;
        Ok(Some(Identity {
            device,
            page,
            keyboard,
        }))
    }
}

// A station of the terminal, with an identity or without.
fn station_of(terminal: TerminalType, identity: Option<Identity>) -> LiveStation
    ensures stands { StandsAt on_entry result
        (new_footing (new_state_on on_entry.does terminal) (environ_of identity)) }
    ensures counts { result.counts ≡ record { carried_out = 0; refused = 0; last = None } }
    ensures taken { result.taken ≡ 0 }
{
    match identity {
        Some(identity) => LiveStation::with_identity(terminal, identity),
        None => LiveStation::new(terminal),
    }
}

// One that C holds, and of which nothing waits.
fn live_of(terminal: TerminalType, identity: Option<Identity>) -> HeldLive
    ensures { IsFreshLive terminal identity result }
{
    HeldEnd {
        end: station_of(terminal, identity),
        reply: None,
        sent: 0,
    }
}

// The terminal of a name, and the identity.
fn terminal_and_identity(
    name: &[u8],
    given: &Named,
) -> Result<(TerminalType, Option<Identity>), Status>
    ensures named { IfOk result (λ both. (terminal_named name.now ≡ Some both.0)
        × IsGivenIdentity
        (identity_names given.now.page given.now.device.now given.now.keyboard.now) both.1) }
    ensures none { IfErr result (λ status. (status ≡ Status.BadArgument)
        × ((terminal_named name.now ≡ None) ⊎ NamesNone
        (identity_names given.now.page given.now.device.now given.now.keyboard.now))) }
{
    match TerminalType::from_name(name) {
        Some(terminal) => Ok((terminal, given.identity()?)),
        None => Err(Status::BadArgument),
    }
}

// Makes a station of the terminal and the identity, unless the handle holds something.
fn make_live(alloc: Global, handle: &mut Handle, name: &[u8], given: &Named) -> Status
    ensures { IsLiveNew name.now
        (identity_names given.now.page given.now.device.now given.now.keyboard.now)
        handle.old.owned.value handle.new.owned.value result }
{
    if let Some(held) = handle.take(alloc) {
        handle.put(held);
        return Status::InUse;
    }
    match terminal_and_identity(name, given) {
        Ok((terminal, identity)) => match Box::new(alloc, live_of(terminal, identity)) {
            Ok(held) => handle.hold(alloc, Machine::LiveStation(held)),
            Err(_) => Status::NoMemory,
        },
        Err(status) => status,
    }
}

/// Makes a station of the terminal's name (RFC 1091, letters in either case) that no refused record ends. It has an
/// identity where `page` is the number of a code page: with the name of a device and a keyboard's type, where these have
/// a byte (RFC 4777, letters in either case). Where `page` is 0 it has none.
///
/// `InUse` where the handle holds something, `BadArgument` where no terminal, no code page, no device or no keyboard is
/// named so, and `NoMemory`. The handle then stays as it is.
#[unsafe(no_mangle)]
pub extern "C" fn ws_c_station_new_live(
    alloc: Global,
    handle: &mut Handle,
    name: &[u8],
    page: u16,
    device: &[u8],
    keyboard: &[u8],
) -> u32
    ensures made { HasStatus result (λ status. IsLiveNew name.now
        (identity_names page device.now keyboard.now) handle.old.owned.value handle.new.owned.value status) }
{
    let given = Named {
        page,
        device,
        keyboard,
    };
    make_live(alloc, handle, name, &given).number()
}

//! Bytes in flight that arrive at an end of a session.
ghost use Rattle.std.specs.Prelude.{◌≡◌, ◌<◌, ◌≤◌, ◌++◌, ◌∷◌, [], flat_map, Some, length, take, IfErr, IfOk, OnOk};
ghost use Rattle.ws_end.specs.Acts.{as_list};
ghost use Rattle.ws_session.specs.world.Wires.{HasCome, HasMemory, AreDelivered, Telling, at_end, host_telling, reported, station_telling};
ghost use Rattle.ws_session.specs.declared.world.Event.TheVariants.{Host as HostEventOf};

use super::Event;
use crate::world::wire::Wire;
use ws_code::{Fault, Reason};
use ws_end::{Applied, End, EndFed, HostEnd, HostEvent, Refusal, Station};

// An end of a session, and what a report tells of it.
pub(crate) trait Reported: End {
    ghost telling: { Telling Self.Event };

    // What the end tells.
    fn event(event: Option<Self::Event>) -> Option<Event>
        ensures reported { as_list result ≡ flat_map telling.tells (as_list event) };

    // That it has refused a byte.
    fn refused(place: u64, reason: Reason) -> Event
        ensures refused { result ≡ telling.refusal place reason };
}

impl Reported for Station {
    ghost telling = { station_telling };

    fn event(_event: Option<Applied>) -> Option<Event>
        ensures reported { as_list result ≡ flat_map (λ applied. []) (as_list _event) }
    {
        None
    }

    fn refused(place: u64, reason: Reason) -> Event {
        Event::StationRefused { place, reason }
    }
}

impl Reported for HostEnd {
    ghost telling = { host_telling };

    fn event(event: Option<HostEvent>) -> Option<Event>
        ensures reported { as_list result
            ≡ flat_map (λ end_events. HostEventOf end_events ∷ []) (as_list event) }
    {
        match event {
            Some(event) => Some(Event::Host(event)),
            None => None,
        }
    }

    fn refused(place: u64, reason: Reason) -> Event {
        Event::HostRefused { place, reason }
    }
}

// So many of the bytes in flight come to the end, or all where there are fewer. What it writes goes on its way.
pub(crate) fn deliver<E: Reported>(
    end: &mut E,
    from: &mut Wire,
    to: &mut Wire,
    events: &mut Vec<Event>,
    count: usize,
) -> Result<(), Fault>
    ensures come { OnOk result (AreDelivered E.behaviour E.telling
        (at_end end.old from.old to.old events.old.items) count
        (at_end end.new from.new to.new events.new.items)) }
    ensures fault { IfErr result (λ fault. fault ≡ Fault.Memory) }
{
    let mut left = count.min(from.in_flight());
    while left > 0 {
        let used = come(end, &from.waiting()[..left], to, events)?;
        from.skip(used);
        left -= used;
    }
    Ok(())
}

// Bytes of the piece come to the end, at least one, and this many. At an end that refuses one all others come to nothing.
fn come<E: Reported>(
    end: &mut E,
    piece: &[u8],
    to: &mut Wire,
    events: &mut Vec<Event>,
) -> Result<usize, Fault>
    requires { 0 < length piece.now }
    // How much of the piece is used.
    ensures within { IfOk result (λ used. used ≤ length piece.now) }
    ensures some { IfOk result (λ used. 0 < used) }
    // What it brings; memory alone may be wanting.
    ensures come { IfOk result (λ used. HasCome E.behaviour E.telling
        end.old (take used piece.now) end.new to.old to.new events.old.items events.new.items) }
    ensures fault { IfErr result (λ fault. fault ≡ Fault.Memory) }
{
    let EndFed { used, step } = end.feed(piece);
    match step {
        Ok(step) => {
            to.write(end.bytes(&step.reply))?;
            tell(events, E::event(step.event))?;
            Ok(used)
        }
        Err(refusal) => {
            tell(events, refused::<E>(refusal)?)?;
            Ok(piece.len())
        }
    }
}

// What a report tells of a refusal. One for want of memory ends the session.
fn refused<E: Reported>(refusal: Refusal) -> Result<Option<Event>, Fault>
    ensures reported { IfOk result (λ event. as_list event
        ≡ reported E.behaviour E.telling [] (Some refusal)) }
    ensures memory { OnOk result (HasMemory (Some refusal)) }
    ensures fault { IfErr result (λ fault. fault ≡ Fault.Memory) }
{
    match refusal {
        Refusal::At { place, reason } => Ok(Some(E::refused(place, reason))),
        Refusal::Failed => Ok(None),
        Refusal::Memory => Err(Fault::Memory),
    }
}

// What a report tells, if anything.
pub(crate) fn tell(events: &mut Vec<Event>, event: Option<Event>) -> Result<(), Fault>
    ensures reported { OnOk result (events.new.items ≡ events.old.items ++ as_list event) }
    ensures fault { IfErr result (λ fault. fault ≡ Fault.Memory) }
{
    let Some(event) = event else {
        return Ok(());
    };
    match events.push(event) {
        Ok(()) => Ok(()),
        Err(_) => Err(Fault::Memory),
    }
}

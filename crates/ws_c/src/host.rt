//! Hosts' ends of sessions.
ghost use Rattle.std.specs.Prelude.{◌≡◌, ◌≤◌, ◌<◌, None, length};
ghost use Rattle.ws_c.specs.Calls.{HasStatus, TellsOnly, crossed, status_number, told_length};
ghost use Rattle.ws_c.specs.Held.{IsHostFreed, OnHost};
ghost use Rattle.ws_c.specs.Hosts.{IsHostNew, IsHostPush, IsNewHost, answer_after, event_told, host_told, number_of_terminal, opening_bytes};
ghost use Rattle.ws_c.specs.Pushes.{nothing_pushed};

use crate::buffer::put_front;
use crate::held::{given, on_held, on_host};
use crate::held_end::holding;
use crate::push::push_all;
use crate::{Handle, HeldEnd, Machine, PushedTold, REPLY_ROOM, Status, Told};
use std::alloc::Global;
use ws_code::List;
use ws_nego::{Reply, TerminalType};
use ws_session::{HostAnswer, HostEnd, HostEvent};

/// A host's end, with what C fetches by calls of their own.
#[derive(Drop)]
pub(crate) struct HeldHost {
    pub held: HeldEnd<HostEnd, Reply>,
    /// The bytes of the record that was sent last; none before the first.
    pub sent: List<u8>,
    /// The answer that came last.
    pub answer: Option<HostAnswer>,
}

/// What a byte tells a host.
#[repr(C)]
#[derive(Clone, Copy)]
pub struct EventTold {
    /// 0 nothing, 1 records are allowed, 2 an answer, 3 Attention, 4 System Request, 5 the cancel has arrived.
    pub kind: u32,
    /// Where records are allowed: the terminal, 1 IBM-5251-11, 2 IBM-5291-1, 3 IBM-5292-2, 4 IBM-3196-A1, 5 IBM-3179-2.
    pub terminal: u32,
}

// A host's end that has asked for the terminal type, and the bytes of that.
fn opened_host(alloc: Global) -> (HeldHost, Reply)
    ensures host { IsNewHost result.0 }
    ensures reply { result.1 ≡ opening_bytes }
{
    let mut end = HostEnd::new(alloc);
    let opening = end.open();
    let held = holding(end);
    let sent = List::of(Vec::new(alloc));
    let host = HeldHost {
        held,
        sent,
        answer: None,
    };
    (host, opening)
}

// Makes a host's end and opens its session, unless the handle holds something.
fn make_host(alloc: Global, handle: &mut Handle, buffer: &mut [u8], told: &mut Told) -> Status
    requires room { 17 ≤ length buffer.old }
    requires untold { told.old ≡ told_length 0 }
    ensures { IsHostNew handle.old.owned.value handle.new.owned.value
        (crossed buffer.old buffer.new result told.new) }
{
    if let Some(held) = handle.take(alloc) {
        handle.put(held);
        return Status::InUse;
    }
    let (host, opening) = opened_host(alloc);
    let Ok(held) = Box::new(alloc, host) else {
        return Status::NoMemory;
    };
    match handle.hold(alloc, Machine::Host(held)) {
        Status::Done => {
            *told = Told::length(put_front(buffer, opening.as_slice()));
            Status::Done
        }
        status => status,
    }
}

/// Makes a host's end and opens its session: `buffer` gets the bytes that ask the station for its terminal type, and
/// `told` how many they are.
///
/// `InUse` where the handle holds something, `NoMemory`, and `NoRoom` where the buffer has fewer than 17 bytes. The
/// handle and the buffer then stay as they are, and `told` is zero.
#[unsafe(no_mangle)]
pub extern "C" fn ws_c_host_new(
    alloc: Global,
    handle: &mut Handle,
    buffer: &mut [u8],
    told: &mut Told,
) -> u32
    ensures room { length buffer.old < 17 → (result ≡ status_number Status.NoRoom)
        × (handle.new ≡ handle.old) × (buffer.new ≡ buffer.old) × (told.new ≡ told_length 0) }
    ensures made { 17 ≤ length buffer.old → HasStatus result (λ status.
        IsHostNew handle.old.owned.value handle.new.owned.value
        (crossed buffer.old buffer.new status told.new)) }
{
    *told = Told::length(0);
    if buffer.len() < 17 {
        return Status::NoRoom.number();
    }
    make_host(alloc, handle, buffer, told).number()
}

/// Frees the host's end that the handle holds. It then holds nothing. Another handle stays as it is.
#[unsafe(no_mangle)]
pub extern "C" fn ws_c_host_free(alloc: Global, handle: &mut Handle)
    ensures { IsHostFreed handle.old.owned.value handle.new.owned.value }
{
    if let Some(owned) = handle.take(alloc) {
        match &*owned {
            Machine::Host(_) => drop(owned),
            _ => handle.put(owned),
        }
    }
}

// The number of a terminal.
fn terminal_number(terminal: TerminalType) -> u32
    ensures { result ≡ number_of_terminal terminal }
{
    match terminal {
        TerminalType::Ibm5251Model11 => 1,
        TerminalType::Ibm5291Model1 => 2,
        TerminalType::Ibm5292Model2 => 3,
        TerminalType::Ibm3196ModelA1 => 4,
        TerminalType::Ibm3179Model2 => 5,
    }
}

impl EventTold {
    // An event of this kind, without a terminal.
    fn plain(kind: u32) -> Self
        ensures { result ≡ record { kind = kind; terminal = 0 } }
    {
        EventTold { kind, terminal: 0 }
    }
}

// Tells an event; an answer is kept.
fn tell_event(event: Option<HostEvent>, answer: &mut Option<HostAnswer>) -> EventTold
    ensures told { result ≡ event_told event }
    ensures kept { answer.new ≡ answer_after event answer.old }
{
    match event {
        None => EventTold::plain(0),
        Some(HostEvent::Ready(terminal)) => EventTold {
            kind: 1,
            terminal: terminal_number(terminal),
        },
        Some(HostEvent::Answer(came)) => {
            *answer = Some(came);
            EventTold::plain(2)
        }
        Some(HostEvent::Attention) => EventTold::plain(3),
        Some(HostEvent::SystemRequest) => EventTold::plain(4),
        Some(HostEvent::Cancelled) => EventTold::plain(5),
    }
}

// Pushes bytes into a host's end, up to the first that tells something. Its replies are short: none waits.
fn push_host(
    host: &mut HeldHost,
    bytes: &[u8],
    buffer: &mut [u8],
    told: &mut PushedTold,
    event: &mut EventTold,
) -> Status
    requires { told.old ≡ nothing_pushed }
    ensures { IsHostPush bytes.now
        (crossed buffer.old buffer.new result (host_told told.new event.new)) host.old host.new }
{
    let (status, came) = push_all(&mut host.held, bytes, buffer, told, true);
    let _brief = host.held.reply.as_slice();
    *event = tell_event(came, &mut host.answer);
    status
}

/// Pushes bytes into a host's end, one after another up to the first that tells something: `buffer` gets what the host
/// writes, `told` says how many bytes were taken and written, and why one is refused, and `event` what the last taken
/// byte tells. An answer is kept until the next comes.
///
/// `Refused` at a byte that the host's end refuses, `NoMemory` where a growth was refused, `Failed` from then on;
/// `NothingHeld` where the handle holds no host; `BadArgument` where the buffer has fewer than 17 bytes, whatever the
/// handle holds; `NoRoom` where fewer are left of it before a byte: what was taken was taken.
#[unsafe(no_mangle)]
pub extern "C" fn ws_c_host_push(
    alloc: Global,
    handle: &mut Handle,
    bytes: &[u8],
    buffer: &mut [u8],
    told: &mut PushedTold,
    event: &mut EventTold,
) -> u32
    ensures room { length buffer.old < REPLY_ROOM → (result ≡ status_number Status.BadArgument)
        × (handle.new ≡ handle.old) × (buffer.new ≡ buffer.old)
        × (told.new ≡ nothing_pushed) × (event.new ≡ event_told None) }
    ensures pushed { REPLY_ROOM ≤ length buffer.old → HasStatus result (λ status.
        let call = crossed buffer.old buffer.new status (host_told told.new event.new) in
        OnHost handle.old.owned.value handle.new.owned.value (IsHostPush bytes.now call)
        (TellsOnly call Status.NothingHeld (host_told nothing_pushed (event_told None)))) }
{
    *told = PushedTold::nothing();
    *event = EventTold::plain(0);
    if buffer.len() < REPLY_ROOM {
        return Status::BadArgument.number();
    }
    on_host!(
        alloc,
        handle,
        |host| push_host(host, bytes, buffer, told, event),
        number
    )
}

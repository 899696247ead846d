//! What a host's end sends.
ghost use Rattle.std.specs.Prelude.{◌≡◌, ◌≢◌, ◌≤◌, ◌<◌, List as Seq, ℕ, Option, Result, length, IfSome, IfNone};
ghost use Rattle.ws_record.specs.Grammar.{opcode_byte};
ghost use Rattle.ws_record.specs.declared.opcode.Opcode.{Opcode as AnOpcode};
ghost use Rattle.ws_stream.specs.Elements.{element_rules};
ghost use Rattle.ws_stream.specs.declared.element.Element.{Element as AnElement};
ghost use Rattle.ws_end.specs.declared.host_end.send_fault.SendFault.{SendFault as AFault};
ghost use Rattle.ws_record.specs.declared.body_reader.BodyFault.{BodyFault as ABodyFault};
ghost use Rattle.ws_c.specs.Calls.{HasStatus, TellsOnly, crossed, returned, status_number, told_length};
ghost use Rattle.ws_c.specs.Held.{HoldsNone, OnHost};
ghost use Rattle.ws_c.specs.Sends.{HostCancelled, HostSent, IsCancel, IsCancelTold, IsFetched, IsOpcodeFrom, IsReadFrom, IsSend, IsSendFaultTold, IsSendFrom, IsSendGiven, IsSentTold};

use crate::buffer::{fetch_bytes, put_front};
use crate::held::{given, on_held, on_host};
use crate::{Handle, HeldHost, Machine, Status, Told};
use std::alloc::Global;
use ws_code::{ByteList, List};
use ws_record::{BodyFault, Opcode, read_body};
use ws_session::{HostEnd, SendFault};
use ws_stream::{Commands, Element};

// The opcode of a byte; that of Cancel Invite, which a cancel sends, is none.
fn opcode_from(byte: u8) -> Option<Opcode>
    ensures { IsOpcodeFrom byte result }
{
    match Opcode::from_byte(byte) {
        None | Some(Opcode::CancelInvite) => None,
        Some(opcode) => Some(opcode),
    }
}

// The status of a fault, and what is told of it.
fn tell_fault(fault: SendFault, told: &mut Told) -> Status
    ensures { IsSendFaultTold fault result told.new }
{
    *told = Told::length(0);
    match fault {
        SendFault::Failed => Status::Failed,
        SendFault::NotAllowed => Status::NotReady,
        SendFault::ReadOutstanding => Status::ReadOutstanding,
        SendFault::NoReadToCancel => Status::NoReadToCancel,
        SendFault::BadSequence => Status::BadArgument,
        SendFault::Screen(reason) => {
            told.reason = reason.number();
            Status::Refused
        }
        SendFault::TooBig => Status::TooBig,
        SendFault::Memory => Status::NoMemory,
    }
}

// Sends a record.
fn send_record(end: &mut HostEnd, opcode: Opcode, body: &[Element]) -> Result<List<u8>, SendFault>
    requires other { opcode ≢ Opcode.CancelInvite }
    ensures { HostSent end.old end.new opcode body.now result }
{
    match end.send(opcode, body) {
        Ok(bytes) => Ok(List::of(bytes)),
        Err(fault) => Err(fault),
    }
}

// What a send crosses as; the bytes are kept.
fn tell_sent(sent: Result<List<u8>, SendFault>, kept: &mut List<u8>, told: &mut Told) -> Status
    ensures { IsSentTold sent result told.new kept.old kept.new }
{
    match sent {
        Ok(bytes) => {
            *told = Told::length(bytes.as_slice().len());
            *kept = bytes;
            Status::Done
        }
        Err(fault) => tell_fault(fault, told),
    }
}

// Sends a record of a host's end.
fn send_host(host: &mut HeldHost, opcode: Opcode, body: &[Element], told: &mut Told) -> Status
    requires other { opcode ≢ Opcode.CancelInvite }
    ensures sent { (sent : Result (Seq ℕ) AFault)
        × HostSent host.old.held.end host.new.held.end opcode body.now sent
        × IsSentTold sent result told.new host.old.sent host.new.sent }
    ensures same { host.new ≡ record host.old {
      held = record host.old.held { end = host.new.held.end };
      sent = host.new.sent;
    } }
{
    let sent = send_record(&mut host.held.end, opcode, body);
    tell_sent(sent, &mut host.sent, told)
}

// Sends a record of the host's end that a handle holds.
fn send(
    alloc: Global,
    handle: &mut Handle,
    opcode: Opcode,
    body: &[Element],
    told: &mut Told,
) -> Status
    requires other { opcode ≢ Opcode.CancelInvite }
    requires untold { told.old ≡ told_length 0 }
    ensures { OnHost handle.old.owned.value handle.new.owned.value
        (IsSend opcode body.now (returned result told.new))
        (HoldsNone result (told.new ≡ told_length 0)) }
{
    on_host!(alloc, handle, |host| send_host(host, opcode, body, told))
}

// The elements that the bytes spell.
fn read_elements(alloc: Global, bytes: &[u8]) -> Result<List<Element>, BodyFault>
    ensures { IsReadFrom element_rules bytes.now result }
{
    match read_body::<Commands>(alloc, bytes) {
        Ok(body) => Ok(List::of(body)),
        Err(why) => Err(why),
    }
}

// Sends a record with a body that was read.
fn send_read(
    alloc: Global,
    handle: &mut Handle,
    opcode: Opcode,
    body: Result<List<Element>, BodyFault>,
    told: &mut Told,
) -> Status
    requires other { opcode ≢ Opcode.CancelInvite }
    requires untold { told.old ≡ told_length 0 }
    ensures { IsSendFrom opcode body handle.old.owned.value handle.new.owned.value
        (returned result told.new) }
{
    match body {
        Ok(body) => send(alloc, handle, opcode, body.as_slice(), told),
        Err(BodyFault::Bad) => Status::BadArgument,
        Err(BodyFault::Memory) => Status::NoMemory,
    }
}

// Sends a record of an opcode, where there is one, and a body in bytes.
fn send_given(
    alloc: Global,
    handle: &mut Handle,
    opcode: Option<Opcode>,
    bytes: &[u8],
    told: &mut Told,
) -> Status
    requires other { IfSome opcode (λ given. given ≢ Opcode.CancelInvite) }
    requires untold { told.old ≡ told_length 0 }
    ensures { (body : Result (Seq AnElement) ABodyFault) × IsReadFrom element_rules bytes.now body
        × IsSendGiven opcode body handle.old.owned.value handle.new.owned.value
        (returned result told.new) }
{
    let body = read_elements(alloc, bytes);
    match opcode {
        Some(opcode) => send_read(alloc, handle, opcode, body, told),
        None => Status::BadArgument,
    }
}

/// Sends a record with flags 0, an opcode and a body, which is given by the bytes that spell its elements (SC30-3533).
/// `told` says of how many bytes the record is; `ws_c_host_sent` gives them.
///
/// `BadArgument` where no opcode but that of Cancel Invite has the byte, or the bytes spell no body; `NotReady` while
/// records aren't allowed; `ReadOutstanding` where a read is asked or a cancel is unanswered, and the body isn't empty;
/// `Refused` where the screen refuses an element, by the reason; `TooBig` at more than 65,535 bytes; `NoMemory`;
/// `Failed` after a refused byte; `NothingHeld` where the handle holds no host. The handle then stays as it is, and `told`
/// is zero but for a reason.
#[unsafe(no_mangle)]
pub extern "C" fn ws_c_host_send(
    alloc: Global,
    handle: &mut Handle,
    opcode: u8,
    body: &[u8],
    told: &mut Told,
) -> u32
    ensures sent { (given : Option AnOpcode) × IsOpcodeFrom opcode given
        × (read : Result (Seq AnElement) ABodyFault) × IsReadFrom element_rules body.now read
        × HasStatus result (λ status.
        IsSendGiven given read handle.old.owned.value handle.new.owned.value
        (returned status told.new)) }
{
    *told = Told::length(0);
    let given = opcode_from(opcode);
    send_given(alloc, handle, given, body, told).number()
}

/// Puts the bytes of the record that was sent last into a buffer: none before the first. `told` says how many.
///
/// `NoRoom` where the buffer has fewer bytes, `NothingHeld` where the handle holds no host; the buffer is then as it was,
/// and `told` zero.
#[unsafe(no_mangle)]
pub extern "C" fn ws_c_host_sent(
    alloc: Global,
    handle: &mut Handle,
    buffer: &mut [u8],
    told: &mut Told,
) -> u32
    ensures { HasStatus result (λ status.
        let call = crossed buffer.old buffer.new status told.new in
        OnHost handle.old.owned.value handle.new.owned.value
        (λ old new. (new ≡ old) × IsFetched old.sent call)
        (TellsOnly call Status.NothingHeld (told_length 0))) }
{
    *told = Told::length(0);
    on_host!(
        alloc,
        handle,
        |host| fetch_bytes(host.sent.as_slice(), buffer, told),
        number
    )
}

// Cancels the asked read.
fn cancel_read(end: &mut HostEnd) -> Result<ByteList<12>, SendFault>
    ensures { HostCancelled end.old end.new result }
{
    match end.cancel() {
        Ok(bytes) => Ok(ByteList::of(bytes)),
        Err(fault) => Err(fault),
    }
}

// What a cancel crosses as.
fn tell_cancel(sent: Result<ByteList<12>, SendFault>, buffer: &mut [u8], told: &mut Told) -> Status
    requires { 12 ≤ length buffer.old }
    ensures { IsCancelTold sent (crossed buffer.old buffer.new result told.new) }
{
    match sent {
        Ok(bytes) => {
            *told = Told::length(put_front(buffer, bytes.as_slice()));
            Status::Done
        }
        Err(fault) => tell_fault(fault, told),
    }
}

// Cancels the asked read of a host's end.
fn cancel_host(host: &mut HeldHost, buffer: &mut [u8], told: &mut Told) -> Status
    requires { 12 ≤ length buffer.old }
    ensures sent { (sent : Result (Seq ℕ) AFault)
        × HostCancelled host.old.held.end host.new.held.end sent
        × IsCancelTold sent (crossed buffer.old buffer.new result told.new) }
    ensures same { host.new ≡ record host.old {
      held = record host.old.held { end = host.new.held.end };
    } }
{
    let sent = cancel_read(&mut host.held.end);
    tell_cancel(sent, buffer, told)
}

/// Cancels the asked read: `buffer` gets the record, and `told` its number of bytes. The read stays asked until an
/// answer or the cancel's end comes.
///
/// `NoReadToCancel` where no read is asked or a cancel is unanswered, `NotReady` while records aren't allowed, `Failed`
/// after a refused byte; `NothingHeld` where the handle holds no host; `NoRoom` where the buffer has fewer than 12
/// bytes. The host and the buffer are then as they were, and `told` is zero.
#[unsafe(no_mangle)]
pub extern "C" fn ws_c_host_cancel(
    alloc: Global,
    handle: &mut Handle,
    buffer: &mut [u8],
    told: &mut Told,
) -> u32
    ensures room { length buffer.old < 12 → (result ≡ status_number Status.NoRoom)
        × (handle.new ≡ handle.old) × (buffer.new ≡ buffer.old) × (told.new ≡ told_length 0) }
    ensures sent { 12 ≤ length buffer.old → HasStatus result (λ status.
        let call = crossed buffer.old buffer.new status told.new in
        OnHost handle.old.owned.value handle.new.owned.value (IsCancel call)
        (TellsOnly call Status.NothingHeld (told_length 0))) }
{
    *told = Told::length(0);
    if buffer.len() < 12 {
        return Status::NoRoom.number();
    }
    on_host!(
        alloc,
        handle,
        |host| cancel_host(host, buffer, told),
        number
    )
}

//! Decoders of a host's stream.
ghost use Rattle.std.specs.Prelude.{◌≡◌, ◌≤◌, ◌<◌, ◌+◌, ◌++◌, ◌≢◌, ◌⊎◌, false, IfNone, IfSome, List as Seq, ℕ, true, length, Result};
ghost use Rattle.ws_code.specs.declared.fault.Fault.{Fault as AFault};
ghost use Rattle.ws_record.specs.Grammar.{opcode_byte};
ghost use Rattle.ws_c.specs.Calls.{HasStatus, TellsOnly, crossed, holds_front, status_number};
ghost use Rattle.ws_c.specs.Held.{HoldsNone, IsDecoderFreed, OnDecoders};
ghost use Rattle.ws_c.specs.Decoding.{DecoderFinishedOn, DecoderPushedOn, DecoderTakesOn, IsDecode, IsDecodeOn, IsDecoderNew, IsStreamEnd, IsEndTold, IsExtendedDecode, IsExtendedDecoderNew, IsExtendedStreamEnd, IsSpellingTold, IsStepToldOn, MayBeCell, plain_step, tells_something};

use crate::buffer::put_behind;
use crate::byte_put::PutsBytes;
use crate::held::{given, on_decoders, on_held};
use crate::{Handle, Machine, Status};
use arrayvec::ArrayVec;
use std::alloc::Global;
use ws_code::{Body, DataByte, Fault};
use ws_record::{Head, Live, Step};
use ws_telnet::{IAC, Token, spell};

/// How many bytes the longest spelling of an element or of a Telnet command has.
const UNIT_ROOM: usize = 133;

/// What bytes complete.
#[repr(C)]
#[derive(Clone, Copy)]
pub struct StepTold {
    /// How many bytes were taken.
    pub taken: usize,
    /// How many bytes of the buffer were set: the spelling of an element or of a Telnet command.
    pub length: usize,
    /// How many bytes of the buffer before these were set: a run of cells, one byte of each.
    pub cells: usize,
    /// Where a byte is refused; places count from 0.
    pub place: u64,
    /// 0 nothing, 1 a record's header, 2 an element of its body, 3 the record, 4 a Telnet command.
    pub kind: u32,
    /// Of a header: all 16 bits.
    pub flags: u16,
    /// Of a header: the length that it declares.
    pub record_length: u16,
    /// Of a header: the opcode's byte.
    pub opcode: u8,
    /// The number of the reason; 0 where there is none.
    pub reason: u8,
}

impl StepTold {
    // That so many bytes were taken, and this kind is complete.
    fn plain(taken: usize, kind: u32) -> Self
        ensures { result ≡ plain_step taken kind }
    {
        StepTold {
            taken,
            length: 0,
            cells: 0,
            place: 0,
            kind,
            flags: 0,
            record_length: 0,
            opcode: 0,
            reason: 0,
        }
    }

    // A header, with which so many bytes were taken.
    fn header(taken: usize, head: Head) -> Self
        ensures { result ≡ record (plain_step taken 1) {
          flags = head.flags;
          record_length = head.length;
          opcode = opcode_byte head.opcode;
        } }
    {
        let mut told = StepTold::plain(taken, 1);
        told.flags = head.flags;
        told.record_length = head.length;
        told.opcode = head.opcode.byte();
        told
    }
}

// Makes a decoder, unless the handle holds something.
fn make_decoder(alloc: Global, handle: &mut Handle) -> Status
    ensures { IsDecoderNew handle.old.owned.value handle.new.owned.value result }
{
    if let Some(held) = handle.take(alloc) {
        handle.put(held);
        return Status::InUse;
    }
    match Box::new(alloc, Live::new()) {
        Ok(decoder) => handle.hold(alloc, Machine::Decoder(decoder)),
        Err(_) => Status::NoMemory,
    }
}

/// Makes a decoder that has taken no byte.
///
/// `InUse` where the handle holds something, and `NoMemory`. The handle then stays as it is.
#[unsafe(no_mangle)]
pub extern "C" fn ws_c_decoder_new(alloc: Global, handle: &mut Handle) -> u32
    ensures made { HasStatus result (λ status.
        IsDecoderNew handle.old.owned.value handle.new.owned.value status) }
{
    make_decoder(alloc, handle).number()
}

// Makes a decoder of live hosts' streams, unless the handle holds something.
fn make_extended_decoder(alloc: Global, handle: &mut Handle) -> Status
    ensures { IsExtendedDecoderNew handle.old.owned.value handle.new.owned.value result }
{
    if let Some(held) = handle.take(alloc) {
        handle.put(held);
        return Status::InUse;
    }
    match Box::new(alloc, Live::new()) {
        Ok(decoder) => handle.hold(alloc, Machine::ExtendedDecoder(decoder)),
        Err(_) => Status::NoMemory,
    }
}

/// Makes a decoder of live hosts' streams that has taken no byte.
///
/// `InUse` where the handle holds something, and `NoMemory`. The handle then stays as it is.
#[unsafe(no_mangle)]
pub extern "C" fn ws_c_decoder_new_extended(alloc: Global, handle: &mut Handle) -> u32
    ensures made { HasStatus result (λ status.
        IsExtendedDecoderNew handle.old.owned.value handle.new.owned.value status) }
{
    make_extended_decoder(alloc, handle).number()
}

/// Frees the decoder that the handle holds. It then holds nothing. Another handle stays as it is.
#[unsafe(no_mangle)]
pub extern "C" fn ws_c_decoder_free(alloc: Global, handle: &mut Handle)
    ensures { IsDecoderFreed handle.old.owned.value handle.new.owned.value }
{
    if let Some(owned) = handle.take(alloc) {
        match &*owned {
            Machine::Decoder(_) | Machine::ExtendedDecoder(_) => drop(owned),
            _ => handle.put(owned),
        }
    }
}

// Puts a spelling into the buffer behind the cells that stand there, and tells it.
fn tell_spelling(
    spelling: &[u8],
    kind: u32,
    before: usize,
    cells: usize,
    buffer: &mut [u8],
    told: &mut StepTold,
) -> Status
    requires room { cells + length spelling.now ≤ length buffer.old }
    requires count { before < usize.MAX }
    ensures { (run front : Seq ℕ) → length run ≡ cells
        → buffer.old ≡ holds_front run front
        → IsSpellingTold run spelling.now (before + 1) kind
        (crossed front buffer.new result told.new) }
{
    put_behind(buffer, cells, spelling);
    *told = StepTold::plain(before + 1, kind);
    told.length = spelling.len();
    told.cells = cells;
    Status::Done
}

// What a step crosses as behind the cells that stand at the buffer's front.
#[inline(never)]
fn tell_step<C: Body>(
    step: Step<C::Unit>,
    before: usize,
    cells: usize,
    buffer: &mut [u8],
    told: &mut StepTold,
) -> Status
    requires room { cells + UNIT_ROOM ≤ length buffer.old }
    requires count { before < usize.MAX }
    ensures { (run front : Seq ℕ) → length run ≡ cells
        → buffer.old ≡ holds_front run front
        → IsStepToldOn C.rules run step before (crossed front buffer.new result told.new) }
{
    match step {
        Step::More => tell_plain(StepTold::plain(before + 1, 0), cells, told),
        Step::Open(head) => tell_plain(StepTold::header(before + 1, head), cells, told),
        Step::Unit(unit) => {
            let mut spelling = ArrayVec::new();
            C::spell(&unit, &mut spelling);
            tell_spelling(spelling.as_slice(), 2, before, cells, buffer, told)
        }
        Step::Close => tell_plain(StepTold::plain(before + 1, 3), cells, told),
        Step::Telnet(telnet) => {
            let mut spelling = ArrayVec::new();
            spell(&Token::Telnet(telnet), &mut spelling);
            tell_spelling(spelling.as_slice(), 4, before, cells, buffer, told)
        }
        Step::Refused { place, reason } => {
            tell_plain(StepTold::plain(before, 0), cells, told);
            told.place = place;
            told.reason = reason.number();
            Status::Refused
        }
        Step::Failed => {
            tell_plain(StepTold::plain(before, 0), cells, told);
            Status::Failed
        }
    }
}

// Tells this and how many cells stand at the buffer's front.
fn tell_plain(plain: StepTold, cells: usize, told: &mut StepTold) -> Status
    ensures status { result ≡ Status.Done }
    ensures told { told.new ≡ record plain { cells = cells } }
{
    *told = plain;
    told.cells = cells;
    Status::Done
}

// Whether a run of so many cells ends before a byte, in a buffer of so many.
fn ends_run(cells: usize, byte: u8, room: usize) -> bool
    requires { cells ≤ room }
    ensures ends { result ≡ true
        → (cells ≢ 0) × (MayBeCell byte → cells + UNIT_ROOM ≤ room → ⊥) }
    ensures on { result ≡ false
        → (cells ≡ 0) ⊎ (MayBeCell byte × (cells + UNIT_ROOM ≤ room)) }
{
    if cells == 0 {
        return false;
    }
    byte == IAC || DataByte::new(byte).is_none() || room - cells < UNIT_ROOM
}

// Pushes a byte. A cell's goes into the buffer, behind those that stand there; another step is given back.
#[inline(always)]
fn take_byte<C: PutsBytes>(
    decoder: &mut Live<C>,
    byte: u8,
    cells: &mut usize,
    buffer: &mut [u8],
) -> Option<Step<C::Unit>>
    requires { cells.old < length buffer.old }
    ensures none { IfNone result ((brought : Seq ℕ)
        × DecoderTakesOn C.rules C.put_by decoder.old byte brought decoder.new
        × (cells.new ≡ cells.old + length brought)
        × (length brought ≤ 1) × ((front before : Seq ℕ) → length front ≡ cells.old
        → buffer.old ≡ holds_front front before
        → buffer.new ≡ holds_front (front ++ brought) before)) }
    ensures some { IfSome result (λ step. DecoderPushedOn C.rules decoder.old decoder.new byte step
        × (tells_something C.put_by step ≡ true)
        × (cells.new ≡ cells.old) × (buffer.new ≡ buffer.old)) }
{
    match decoder.push(byte) {
        Step::More => None,
        Step::Unit(unit) => match C::byte_put(&unit) {
            Some(cell) => {
                put_behind(buffer, *cells, &[cell]);
                *cells += 1;
                None
            }
            None => Some(Step::Unit(unit)),
        },
        step => Some(step),
    }
}

// Pushes bytes into a decoder, up to the end of a run of cells, or to the first with which something else is complete.
fn push_all<C: PutsBytes>(
    decoder: &mut Live<C>,
    bytes: &[u8],
    buffer: &mut [u8],
    told: &mut StepTold,
) -> Status
    requires { UNIT_ROOM ≤ length buffer.old }
    ensures { IsDecodeOn C.rules C.put_by bytes.now
        (crossed buffer.old buffer.new result told.new) decoder.old decoder.new }
{
    let mut cells = 0;
    for (at, byte) in bytes.iter().enumerate() {
        if ends_run(cells, *byte, buffer.len()) {
            return tell_plain(StepTold::plain(at, 0), cells, told);
        }
        match take_byte(decoder, *byte, &mut cells, buffer) {
            None => {}
            Some(step) => return tell_step::<C>(step, at, cells, buffer, told),
        }
    }
    tell_plain(StepTold::plain(bytes.len(), 0), cells, told)
}

/// Pushes bytes into a decoder, up to the first with which something is complete, or to the end of a run of cells: `told`
/// says what, and how many bytes were taken; `buffer` gets the bytes of the cells, and behind them the spelling of an
/// element or of a Telnet command.
///
/// A cell is an element that puts one byte into the next cell. A run of them ends before an order, a command or an FF,
/// with the last byte, and where fewer than 133 bytes are left of the buffer; it is told with what is complete behind it,
/// where nothing of these stands between, as a refusal.
///
/// `Refused` at the first byte after which the bytes begin no stream, `Failed` from then on; `NothingHeld` where the
/// handle holds no decoder; `NoRoom` where the buffer has fewer than 133 bytes: no byte is then taken. Where nothing is
/// told, `told` is zero.
#[unsafe(no_mangle)]
pub extern "C" fn ws_c_decoder_push(
    alloc: Global,
    handle: &mut Handle,
    bytes: &[u8],
    buffer: &mut [u8],
    told: &mut StepTold,
) -> u32
    ensures room { length buffer.old < UNIT_ROOM → (result ≡ status_number Status.NoRoom)
        × (handle.new ≡ handle.old) × (buffer.new ≡ buffer.old) × (told.new ≡ plain_step 0 0) }
    ensures pushed { UNIT_ROOM ≤ length buffer.old → HasStatus result (λ status.
        let call = crossed buffer.old buffer.new status told.new in
        OnDecoders handle.old.owned.value handle.new.owned.value (IsDecode bytes.now call)
        (IsExtendedDecode bytes.now call) (TellsOnly call Status.NothingHeld (plain_step 0 0))) }
{
    *told = StepTold::plain(0, 0);
    if buffer.len() < UNIT_ROOM {
        return Status::NoRoom.number();
    }
    on_decoders!(
        alloc,
        handle,
        |decoder| push_all(decoder, bytes, buffer, told)
    )
}

// What an end crosses as.
fn tell_end(ended: Result<(), Fault>, place: &mut u64) -> Status
    ensures { IsEndTold ended result place.new }
{
    *place = 0;
    match ended {
        Ok(()) => Status::Done,
        Err(Fault::Truncated { at }) => {
            *place = at;
            Status::Truncated
        }
        Err(_) => Status::Failed,
    }
}

// Ends a decoder's stream.
fn finish_decoder<C: Body>(decoder: &mut Live<C>, place: &mut u64) -> Status
    ensures { (ended : Result (Unit {0}) AFault)
        × DecoderFinishedOn C.rules decoder.old decoder.new ended
        × IsEndTold ended result place.new }
{
    let ended = decoder.finish();
    tell_end(ended, place)
}

/// Asks a decoder whether its stream may end here: `Truncated` where it ends inside a token or a record, with the number
/// of its bytes as the place, and then it answers `Failed`, as after a refusal.
///
/// `NothingHeld` where the handle holds no decoder; `place` is then 0.
#[unsafe(no_mangle)]
pub extern "C" fn ws_c_decoder_finish(alloc: Global, handle: &mut Handle, place: &mut u64) -> u32
    ensures { HasStatus result (λ status. OnDecoders handle.old.owned.value handle.new.owned.value
        (IsStreamEnd status place.new) (IsExtendedStreamEnd status place.new)
        (HoldsNone status (place.new ≡ 0))) }
{
    *place = 0;
    on_decoders!(alloc, handle, |decoder| finish_decoder(decoder, place))
}

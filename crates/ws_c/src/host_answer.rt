//! The answer that a host's end has taken.
ghost use Rattle.std.specs.Prelude.{◌≡◌};
ghost use Rattle.ws_c.specs.Calls.{HasStatus, TellsOnly, crossed};
ghost use Rattle.ws_c.specs.Held.{HoldsNone, OnHost};
ghost use Rattle.ws_c.specs.Answers.{IsAnswerTold, IsContentTold, IsFieldRead, no_answer, no_read_field};

use crate::buffer::put_front;
use crate::held::{given, on_held, on_host};
use crate::{Handle, Machine, Status};
use std::alloc::Global;
use ws_session::{HostAnswer, ReadField};

/// What of an answer is no field.
#[repr(C)]
#[derive(Clone, Copy)]
pub struct AnswerTold {
    /// How many fields it has.
    pub field_count: usize,
    /// 1 to 24.
    pub cursor_row: u8,
    /// 1 to 80.
    pub cursor_column: u8,
    /// The key's attention identification.
    pub aid: u8,
}

/// A field of an answer, without its content.
#[repr(C)]
#[derive(Clone, Copy)]
pub struct ReadFieldTold {
    /// How many bytes its content has.
    pub length: usize,
    /// Of its first cell, 1 to 24.
    pub row: u8,
    /// Of its first cell, 1 to 80.
    pub column: u8,
}

impl AnswerTold {
    // Nothing of an answer.
    fn nothing() -> Self
        ensures { result ≡ no_answer }
    {
        AnswerTold {
            field_count: 0,
            cursor_row: 0,
            cursor_column: 0,
            aid: 0,
        }
    }
}

impl ReadFieldTold {
    // Nothing of a field.
    fn nothing() -> Self
        ensures { result ≡ no_read_field }
    {
        ReadFieldTold {
            length: 0,
            row: 0,
            column: 0,
        }
    }
}

// Tells an answer.
fn tell_answer(answer: &Option<HostAnswer>, told: &mut AnswerTold) -> Status
    requires { told.old ≡ no_answer }
    ensures { IsAnswerTold answer.now result told.new }
{
    match answer {
        None => Status::NoAnswer,
        Some(came) => {
            *told = AnswerTold {
                field_count: came.fields.as_slice().len(),
                cursor_row: came.cursor.row(),
                cursor_column: came.cursor.col(),
                aid: came.aid.byte(),
            };
            Status::Done
        }
    }
}

/// Tells the answer that came last: the cursor, the key and the number of fields (SC30-3533, responses to read
/// commands).
///
/// `NoAnswer` where none has come yet, `NothingHeld` where the handle holds no host; `told` is then zero.
#[unsafe(no_mangle)]
pub extern "C" fn ws_c_host_answer(alloc: Global, handle: &mut Handle, told: &mut AnswerTold) -> u32
    ensures { HasStatus result (λ status. OnHost handle.old.owned.value handle.new.owned.value
        (λ old new. (new ≡ old) × IsAnswerTold old.answer status told.new)
        (HoldsNone status (told.new ≡ no_answer))) }
{
    *told = AnswerTold::nothing();
    on_host!(
        alloc,
        handle,
        |host| tell_answer(&host.answer, told),
        number
    )
}

// Tells a field, and puts its content into a buffer that has room for it.
fn tell_field(field: &ReadField, buffer: &mut [u8], told: &mut ReadFieldTold) -> Status
    ensures { IsContentTold field.now (crossed buffer.old buffer.new result told.new) }
{
    let content = field.content.as_slice();
    *told = ReadFieldTold {
        length: content.len(),
        row: field.address.row(),
        column: field.address.col(),
    };
    if buffer.len() < content.len() {
        return Status::NoRoom;
    }
    put_front(buffer, content);
    Status::Done
}

// Tells the field of an index.
fn field_at(
    answer: &Option<HostAnswer>,
    index: usize,
    buffer: &mut [u8],
    told: &mut ReadFieldTold,
) -> Status
    requires { told.old ≡ no_read_field }
    ensures { IsFieldRead answer.now index (crossed buffer.old buffer.new result told.new) }
{
    let Some(came) = answer else {
        return Status::NoAnswer;
    };
    let fields = came.fields.as_slice();
    if index >= fields.len() {
        return Status::BadArgument;
    }
    tell_field(&fields[index], buffer, told)
}

/// Tells a field of the answer that came last, by its index in the order of the fields' starts, from 0, and puts its
/// content into `buffer`.
///
/// `NoRoom` where the buffer has fewer bytes than the content: `told` says how many it has, and the buffer is as it was.
/// `BadArgument` where there is no such field, `NoAnswer` where no answer has come yet, `NothingHeld` where the handle
/// holds no host; then `told` is zero.
#[unsafe(no_mangle)]
pub extern "C" fn ws_c_host_answer_field(
    alloc: Global,
    handle: &mut Handle,
    index: usize,
    buffer: &mut [u8],
    told: &mut ReadFieldTold,
) -> u32
    ensures { HasStatus result (λ status.
        let call = crossed buffer.old buffer.new status told.new in
        OnHost handle.old.owned.value handle.new.owned.value
        (λ old new. (new ≡ old) × IsFieldRead old.answer index call)
        (TellsOnly call Status.NothingHeld no_read_field)) }
{
    *told = ReadFieldTold::nothing();
    on_host!(
        alloc,
        handle,
        |host| field_at(&host.answer, index, buffer, told),
        number
    )
}

//! An end of a session as C holds it that goes on by pieces: bytes pushed into it, and what of its last reply still waits
//! for room.
ghost use Rattle.std.specs.Prelude.{◌≡◌, ◌≢◌, ◌≤◌, ◌<◌, ◌+◌, ◌^◌, [], None, Some, length};
ghost use Rattle.ws_c.specs.Calls.{crossed};
ghost use Rattle.ws_c.specs.LiveEnds.{HandsOutAt, IsPiecePush, left_of};
ghost use Rattle.ws_c.specs.HeldEnds.{filling};
ghost use Rattle.ws_c.specs.Pushes.{nothing_pushed};

use crate::buffer::put_behind;
use crate::push::tell_push_refusal;
use crate::{HeldEnd, PushedTold, REPLY_ROOM, Status};
use ws_end::{End, EndFed};

/// What still waits.
pub(crate) fn rest<E: End>(held: &HeldEnd<E, Option<E::Reply>>) -> &[u8]
    ensures rest { result.now ≡ left_of E.written held.now }
    ensures count { held.now.sent + length result.now < 2 ^ 64 }
{
    let sent = held.sent;
    let Some(reply) = &held.reply else {
        return &[];
    };
    let written = held.end.bytes(reply);
    if sent < written.len() {
        &written[sent..]
    } else {
        &written[written.len()..]
    }
}

/// Forgets what it wrote last: nothing waits.
pub(crate) fn forget<E: End>(held: &mut HeldEnd<E, Option<E::Reply>>)
    ensures { held.new ≡ record { end = held.old.end; reply = None; sent = 0 } }
{
    held.reply = None;
    held.sent = 0;
}

// Keeps what it has just written, all of which waits.
fn keep<E: End>(held: &mut HeldEnd<E, Option<E::Reply>>, reply: E::Reply)
    ensures { held.new ≡ record { end = held.old.end; reply = Some reply; sent = 0 } }
{
    held.reply = Some(reply);
    held.sent = 0;
}

// Puts of what waits as much as there is room for into a buffer, behind the bytes that were put there.
fn hand_out<E: End>(
    held: &mut HeldEnd<E, Option<E::Reply>>,
    buffer: &mut [u8],
    told: &mut PushedTold,
)
    requires { told.old.replied ≤ length buffer.old }
    ensures { HandsOutAt E.written held.old held.new
        (filling told.old buffer.old) (filling told.new buffer.new) }
{
    let rest = rest(held);
    let room = buffer.len() - told.replied;
    let count = rest.len().min(room);
    put_behind(buffer, told.replied, &rest[..count]);
    told.replied += count;
    held.sent += count;
}

// The status where all goes well: something may wait.
fn status_of<E: End>(held: &HeldEnd<E, Option<E::Reply>>) -> Status
    ensures done { left_of E.written held.now ≡ [] → result ≡ Status.Done }
    ensures waits { left_of E.written held.now ≢ [] → result ≡ Status.NoRoom }
{
    if rest(held).is_empty() {
        return Status::Done;
    }
    Status::NoRoom
}

/// Pushes bytes into an end. What it writes goes out first: while some of it waits no byte is taken.
#[inline(never)]
pub(crate) fn push_pieces<E: End>(
    held: &mut HeldEnd<E, Option<E::Reply>>,
    bytes: &[u8],
    buffer: &mut [u8],
    told: &mut PushedTold,
) -> Status
    requires { told.old ≡ nothing_pushed }
    ensures { IsPiecePush E.behaviour E.written bytes.now
        (crossed buffer.old buffer.new result told.new) held.old held.new }
{
    hand_out(held, buffer, told);
    while told.taken < bytes.len() {
        if !rest(held).is_empty() {
            return Status::NoRoom;
        }
        if buffer.len() - told.replied < REPLY_ROOM {
            return Status::NoRoom;
        }
        let EndFed { used, step } = held.end.feed(&bytes[told.taken..]);
        match step {
            Ok(step) => {
                told.taken += used;
                keep(held, step.reply);
                hand_out(held, buffer, told);
            }
            Err(refusal) => {
                told.taken += used.saturating_sub(1);
                forget(held);
                return tell_push_refusal(refusal, told);
            }
        }
    }
    status_of(held)
}

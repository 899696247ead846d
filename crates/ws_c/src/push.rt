//! Bytes pushed into an end of a session of any kind.
ghost use Rattle.std.specs.Prelude.{◌≡◌, ◌≢◌, ◌≤◌, ◌<◌, ◌+◌, ◌++◌, ◌&&◌, List, ℕ, [], is_some, length};
ghost use Rattle.ws_end.specs.driver.Driven.{driving};
ghost use Rattle.ws_c.specs.Calls.{crossed, holds_front};
ghost use Rattle.ws_c.specs.HeldEnds.{waiting};
ghost use Rattle.ws_c.specs.Pushes.{IsPush, IsPushRefused, nothing_pushed, pushed_told};

use crate::held_end::{hand_out, keep_nothing, rest};
use crate::{HeldEnd, PushedTold, REPLY_ROOM, Status};
use ws_session::{Driver, EndFed, Reacts, Refusal};

/// The status of a refusal, and what is told of it beside the counts.
pub(crate) fn tell_push_refusal(refusal: Refusal, told: &mut PushedTold) -> Status
    requires { told.old ≡ pushed_told told.old.taken told.old.replied }
    ensures taken { told.new.taken ≡ told.old.taken }
    ensures replied { told.new.replied ≡ told.old.replied }
    ensures refused { IsPushRefused refusal result told.new }
{
    match refusal {
        Refusal::At { place, reason } => {
            told.place = place;
            told.reason = reason.number();
            Status::Refused
        }
        Refusal::Failed => Status::Failed,
        Refusal::Memory => Status::NoMemory,
    }
}

// Whether a push stops at what is told.
fn is_ending<T>(stops: bool, event: &Option<T>) -> bool
    ensures { result ≡ (stops && is_some event.now) }
{
    stops && event.is_some()
}

// The status where all goes well: something may wait.
fn status_of<R: Reacts>(held: &HeldEnd<Driver<R>, R::Reply>) -> Status
    ensures done { waiting (driving R.Body.rules R.Collector.keeper R.does) held.now ≡ []
        → result ≡ Status.Done }
    ensures waits { waiting (driving R.Body.rules R.Collector.keeper R.does) held.now ≢ []
        → result ≡ Status.NoRoom }
{
    if rest(held).is_empty() {
        return Status::Done;
    }
    Status::NoRoom
}

/// Pushes bytes into an end, up to the first that tells something where it `stops` there. What the end writes goes out
/// first: while some of it waits no byte is taken.
#[inline(never)]
pub(crate) fn push_all<R: Reacts>(
    held: &mut HeldEnd<Driver<R>, R::Reply>,
    bytes: &[u8],
    buffer: &mut [u8],
    told: &mut PushedTold,
    stops: bool,
) -> (Status, Option<R::Event>)
    requires { told.old ≡ nothing_pushed }
    ensures { IsPush (driving R.Body.rules R.Collector.keeper R.does) stops result.1 bytes.now
        (crossed buffer.old buffer.new result.0 told.new) held.old held.new }
{
    hand_out(held, buffer, told);
    while told.taken < bytes.len() {
        if !rest(held).is_empty() {
            return (Status::NoRoom, None);
        }
        if buffer.len() - told.replied < REPLY_ROOM {
            return (Status::NoRoom, None);
        }
        let EndFed { used, step } = held.end.feed(&bytes[told.taken..]);
        match step {
            Ok(step) => {
                told.taken += used;
                held.reply = step.reply;
                held.sent = 0;
                hand_out(held, buffer, told);
                if is_ending(stops, &step.event) {
                    return (status_of(held), step.event);
                }
            }
            Err(refusal) => {
                told.taken += used.saturating_sub(1);
                keep_nothing(held);
                return (tell_push_refusal(refusal, told), None);
            }
        }
    }
    (status_of(held), None)
}

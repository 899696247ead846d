//! An end of a session as C holds it, with what of its last reply still waits for room.
ghost use Rattle.std.specs.Prelude.{◌≡◌, ◌≤◌, ◌<◌, ◌+◌, ◌^◌, [], length};
ghost use Rattle.ws_end.specs.driver.Driven.{driving};
ghost use Rattle.ws_c.specs.HeldEnds.{HandsOut, filling, waiting};

use crate::PushedTold;
use crate::buffer::put_behind;
use ws_session::{Driver, Reacts};

/// An end of a session, and what it wrote last.
#[derive(Drop)]
pub(crate) struct HeldEnd<E, P> {
    pub end: E,
    /// What it wrote last.
    pub reply: P,
    /// How many bytes of that have gone out. The others wait.
    pub sent: usize,
}

/// An end of which nothing waits.
pub(crate) fn holding<R: Reacts>(end: Driver<R>) -> HeldEnd<Driver<R>, R::Reply>
    ensures end { result.end ≡ end }
    ensures none { waiting (driving R.Body.rules R.Collector.keeper R.does) result ≡ [] }
{
    HeldEnd {
        end,
        reply: R::silence(),
        sent: 0,
    }
}

/// What still waits.
pub(crate) fn rest<R: Reacts>(held: &HeldEnd<Driver<R>, R::Reply>) -> &[u8]
    ensures rest { result.now
        ≡ waiting (driving R.Body.rules R.Collector.keeper R.does) held.now }
    ensures count { held.now.sent + length result.now < 2 ^ 64 }
{
    let written = held.end.reacts().bytes(&held.reply);
    if held.sent < written.len() {
        &written[held.sent..]
    } else {
        &written[written.len()..]
    }
}

/// Forgets what it wrote last: nothing waits.
pub(crate) fn keep_nothing<R: Reacts>(held: &mut HeldEnd<Driver<R>, R::Reply>)
    ensures end { held.new.end ≡ held.old.end }
    ensures none { waiting (driving R.Body.rules R.Collector.keeper R.does) held.new ≡ [] }
{
    held.reply = R::silence();
    held.sent = 0;
}

/// Puts of what waits as much as there is room for into a buffer, behind the bytes that were put there.
pub(crate) fn hand_out<R: Reacts>(
    held: &mut HeldEnd<Driver<R>, R::Reply>,
    buffer: &mut [u8],
    told: &mut PushedTold,
)
    requires { told.old.replied ≤ length buffer.old }
    ensures { HandsOut (driving R.Body.rules R.Collector.keeper R.does) held.old held.new
        (filling told.old buffer.old) (filling told.new buffer.new) }
{
    let rest = rest(held);
    let room = buffer.len() - told.replied;
    let count = rest.len().min(room);
    put_behind(buffer, told.replied, &rest[..count]);
    told.replied += count;
    held.sent += count;
}

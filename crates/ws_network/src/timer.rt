//! The times of waits and of writes.
ghost use Rattle.std.specs.Prelude.{◌≡◌, ℕ};
ghost use Rattle.ws_network.specs.Times as Spec;

use crate::timed_source::TimedSource;
use std::cell::Cell;
use std::io::ErrorKind;
use std::marker::Model;
use std::time::{Clock, Duration, Instant};
use std::{io, thread};
use ws_live::{WaitSpan, Watch};

// How many milliseconds a write has at least, so that what can go at once does so also when a wait's time is over.
const MOMENT: u64 = 10;

// How many milliseconds a wait that takes what has come takes it, from a peer that never pauses.
const LOOK: u64 = 200;

/// The time of a wait, which all that is read and written in it shares, and of a write that stands in none.
#[derive(Drop)]
pub(crate) struct Timer<'a, C> {
    clock: &'a C,
    /// How long a wait, or a write of some bytes, may take.
    limit: Duration,
    /// When the wait ends. `None` where the clock can't tell, and then its time is over.
    until: Cell<Option<Instant>>,
    /// Whether what is written stands in that wait.
    is_waiting: Cell<bool>,
    /// How long that wait lasts.
    span: Cell<WaitSpan>,
    /// When nothing has come for the time of a quiet wait, or when one ends that takes what has come. `None` where the
    /// clock can't tell.
    rests_at: Cell<Option<Instant>>,
}

impl<'a, C: Clock> Timer<'a, C> {
    /// A timer of waits of this time. One begins now.
    pub(crate) fn new(clock: &'a C, limit: Duration) -> Self {
        Timer {
            clock,
            limit,
            until: Cell::new(end_of_wait(clock, limit)),
            is_waiting: Cell::new(false),
            span: Cell::new(WaitSpan::Whole),
            rests_at: Cell::new(None),
        }
    }

    /// What is left of the wait; `None` where its time is over.
    pub(crate) fn left(&self) -> Option<Duration> {
        self.left_until(self.until.get())
    }

    /// What is left of it for a read; `None` where its time is over, nothing has come for the time of a quiet one, or one
    /// has looked long enough at what has come.
    pub(crate) fn left_to_read(&self) -> Option<Duration> {
        match self.span.get() {
            WaitSpan::Quiet(_) | WaitSpan::AtOnce => {
                self.left_until(earlier(self.until.get(), self.rests_at.get()))
            }
            WaitSpan::Whole => self.left(),
        }
    }

    /// Whether a read takes only what has already come.
    pub(crate) fn is_at_once(&self) -> bool {
        matches!(self.span.get(), WaitSpan::AtOnce)
    }

    /// Whether the wait is over since nothing has come, where it is over.
    pub(crate) fn is_at_rest(&self) -> bool {
        match (self.span.get(), self.rests_at.get(), self.until.get()) {
            (WaitSpan::Quiet(_), Some(rests_at), Some(until)) => rests_at <= until,
            _ => false,
        }
    }

    /// Bytes came. A quiet wait goes on for its time from now on.
    pub(crate) fn note_bytes(&self) {
        if let WaitSpan::Quiet(milliseconds) = self.span.get() {
            self.rest_after(u64::from(milliseconds));
        }
    }

    fn rest_after(&self, milliseconds: u64) {
        let time = Duration::from_millis(milliseconds);
        self.rests_at.set(end_of_wait(self.clock, time));
    }

    /// When the time of a write is over that begins now: with the wait in which it stands, though it has a moment.
    pub(crate) fn end_of_write(&self) -> Option<Instant> {
        if self.is_waiting.get() {
            later(
                self.until.get(),
                end_of_wait(self.clock, Duration::from_millis(MOMENT)),
            )
        } else {
            end_of_wait(self.clock, self.limit)
        }
    }

    /// What is left until then; `None` where nothing is.
    pub(crate) fn left_until(&self, until: Option<Instant>) -> Option<Duration> {
        let now = Instant::now(self.clock).ok()?;
        let left = until?.checked_duration_since(now)?;
        if left.is_zero() { None } else { Some(left) }
    }

    // A wait of this span begins.
    fn restart(&self, span: WaitSpan) {
        self.until.set(end_of_wait(self.clock, self.limit));
        self.is_waiting.set(true);
        self.span.set(span);
        if self.is_at_once() {
            self.rest_after(LOOK);
        }
        self.note_bytes();
    }

    // What is written from now on stands in no wait.
    fn rest(&self) {
        self.is_waiting.set(false);
    }
}

/// A watch by a timer. It counts the waits of a session, up to the greatest value of 64 bits.
#[derive(Drop)]
pub(crate) struct TimedWatch<'a, C> {
    timer: &'a Timer<'a, C>,
    begun: u64,
}

impl<'a, C> Model for TimedWatch<'a, C> {
    ghost Value = { ℕ };

    ghost view = { λ waits. waits.begun };
}

impl<'a, C: Clock> TimedWatch<'a, C> {
    /// No wait has begun.
    pub(crate) fn new(timer: &'a Timer<'a, C>) -> Self
        ensures { result ≡ 0 }
    {
        TimedWatch { timer, begun: 0 }
    }
}

impl<'a, C: Clock> Watch<TimedSource<'a, C>> for TimedWatch<'a, C> {
    ghost times = { Spec.timed_waits };

    ghost tells = { Spec.timed_tells };

    fn end_waits(&mut self) {
        self.timer.rest();
    }

    fn begin(&mut self, _source: &TimedSource<'a, C>, span: WaitSpan) {
        self.begun = self.begun.saturating_add(1);
        self.timer.restart(span);
    }

    fn is_late(&self, source: &TimedSource<'a, C>) -> bool {
        source.is_late()
    }

    fn is_quiet(&self, source: &TimedSource<'a, C>) -> bool {
        source.is_at_rest()
    }

    fn pause(&mut self, milliseconds: u32) {
        thread::sleep(
            self.timer.clock,
            Duration::from_millis(u64::from(milliseconds)),
        );
    }
}

// The later of two moments.
fn later(one: Option<Instant>, other: Option<Instant>) -> Option<Instant> {
    match (one, other) {
        (Some(one), Some(other)) => Some(one.max(other)),
        _ => other,
    }
}

// The earlier of two moments.
fn earlier(one: Option<Instant>, other: Option<Instant>) -> Option<Instant> {
    match (one, other) {
        (Some(one), Some(other)) => Some(one.min(other)),
        _ => None,
    }
}

// When a wait ends that begins now.
fn end_of_wait<C: Clock>(clock: &C, limit: Duration) -> Option<Instant> {
    Instant::now(clock).ok()?.checked_add(limit)
}

/// The error of a call for which no time is left.
pub(crate) fn no_time() -> io::Error {
    io::Error::from(ErrorKind::TimedOut)
}

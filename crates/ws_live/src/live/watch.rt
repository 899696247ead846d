//! What tells the time of the waits of a session.
ghost use Rattle.std.specs.Prelude.{◌≡◌};
ghost use Rattle.ws_live.specs.live.Watches.{HasBegun, WatchTells, WatchTimes};

/// How long a wait lasts.
#[derive(Clone, Copy)]
pub enum WaitSpan {
    /// The whole time of a wait.
    Whole,
    /// No time: only what has already come is taken.
    AtOnce,
    /// The whole time, but no longer than until nothing has come for so many milliseconds, from the last byte that came
    /// or from the wait's beginning.
    Quiet(u32),
}

/// What tells the time of the waits for a source. It counts them, up to the greatest value of 64 bits.
pub trait Watch<S> {
    // What the end of waits and the beginning of one do to it, and how many have begun.
    ghost times: { WatchTimes Self S };

    // What it may tell of a source at which a read has failed.
    ghost tells: { WatchTells S };

    /// The waits before are over: what is written from now on stands in none, before one begins.
    fn end_waits(&mut self)
        ensures { times.ends self.old self.new };

    /// A wait begins. What is read from the source from now on has its time.
    fn begin(&mut self, source: &S, span: WaitSpan)
        ensures { HasBegun times source.now span self.old self.new };

    /// Whether the last read from the source, which failed, did so for want of time.
    fn is_late(&self, source: &S) -> bool
        ensures { tells.is_late source.now result };

    /// Whether the last read from the source, which failed for want of time, did so since nothing had come for the time
    /// of a quiet wait.
    fn is_quiet(&self, source: &S) -> bool
        ensures { tells.is_quiet source.now result };

    /// Lets so many milliseconds go by. Nothing is read or written.
    fn pause(&mut self, milliseconds: u32)
        ensures { self.new ≡ self.old };
}

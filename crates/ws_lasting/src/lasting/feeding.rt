//! Bytes that come to a station that no record ends, in pieces.
ghost use Rattle.std.specs.Prelude.{◌≡◌, ◌≢◌, ◌≤◌, ◌<◌, ◌+◌, ◌^◌, ◌⊎◌, [], ℕ, None, Ok, Err, IfErr, IfOk, IsSome, OnErr, OnOk, length, take, true, false};
ghost use Rattle.ws_lasting.specs.Behaviour.{AreQuiet, AreTakenSo};
ghost use Rattle.ws_lasting.specs.Footings.{AtLasting, IsRefusalPlacedSo, LastingStep, StaysShut, bytes_written};
ghost use Rattle.ws_lasting.specs.Fronts.{IsFrontTaken};
ghost use Rattle.ws_end.specs.Ends.{IsShut};
ghost use Rattle.ws_end.specs.station.Displays.{on_display as on};

use super::hearing::silence;
use crate::{LastingReply, LastingStation, LastingStep, RecordEvent};
use ws_code::Code;
use ws_session::{EndFed, Refusal, StationDisplay};

impl<D: StationDisplay> LastingStation<D> {
    /// Takes bytes of the piece, up to and with the first at which it writes or tells something or that ends the
    /// session, or all. At those before it neither writes nor tells anything.
    ///
    /// # Errors
    ///
    /// As `take_byte`. The byte that ends the session is the last that is used.
    pub fn feed(&mut self, piece: &[u8]) -> EndFed<RecordEvent, LastingReply<D::Reply>>
        ensures within { result.used ≤ length piece.now }
        ensures some { 0 < length piece.now → result.step ≢ Err Refusal.Failed
            → 0 < result.used }
        ensures whole { IfOk result.step (λ step. step.event ≡ None
            → bytes_written (on D.Commands.rules D.does) self.new step.reply ≡ []
            → (result.used ≡ length piece.now) ⊎ (self.old.taken + result.used + 1 ≡ 2 ^ 64)) }
        ensures taken { AtLasting (on D.Commands.rules D.does) self.old (λ at.
            self.old.taken + 1 < 2 ^ 64
            → AreTakenSo (on D.Commands.rules D.does)
            self.old self.new at (take result.used piece.now) result.step) }
        ensures first { AtLasting (on D.Commands.rules D.does) self.old (λ at.
            (n : ℕ) → n < result.used
            → AreQuiet (on D.Commands.rules D.does) at (take n piece.now)) }
        ensures placed { IsRefusalPlacedSo self.old self.old.taken self.new result.step }
        ensures after { OnErr result.step (IsSome self.new.ended) }
        ensures stopped { IsShut self.old.ended self.old.taken
            → (result.step ≡ Err Refusal.Failed) × (result.used ≡ 0)
            × StaysShut self.old self.new }
        ensures failed { IsSome self.old.ended → self.new ≡ self.old }
    {
        if self.ended.is_some() {
            return EndFed {
                used: 0,
                step: Err(Refusal::Failed),
            };
        }
        let room = u64::MAX - self.taken;
        if room == 0 {
            return EndFed {
                used: 0,
                step: self.stop(Refusal::Failed),
            };
        }
        let count = room.min(piece.len() as u64) as usize;
        self.take(&piece[..count])
    }

    // Takes bytes of a piece that can be counted.
    fn take(&mut self, piece: &[u8]) -> EndFed<RecordEvent, LastingReply<D::Reply>>
        requires fits { self.old.taken + length piece.now < 2 ^ 64 }
        ensures within { result.used ≤ length piece.now }
        ensures some { 0 < length piece.now → result.step ≢ Err Refusal.Failed
            → 0 < result.used }
        ensures whole { IfOk result.step (λ step. step.event ≡ None
            → bytes_written (on D.Commands.rules D.does) self.new step.reply ≡ []
            → result.used ≡ length piece.now) }
        ensures taken { AtLasting (on D.Commands.rules D.does) self.old (λ at.
            AreTakenSo (on D.Commands.rules D.does)
            self.old self.new at (take result.used piece.now) result.step) }
        ensures first { AtLasting (on D.Commands.rules D.does) self.old (λ at.
            (n : ℕ) → n < result.used
            → AreQuiet (on D.Commands.rules D.does) at (take n piece.now)) }
        ensures placed { IsRefusalPlacedSo self.old self.old.taken self.new result.step }
        ensures after { OnErr result.step (IsSome self.new.ended) }
    {
        let _is = &self.taken;
        let mut used = 0;
        while used < piece.len() {
            let front = self.take_front(&piece[used..]);
            used += front.used;
            if !self.is_silent(&front.step) {
                return EndFed {
                    used,
                    step: front.step,
                };
            }
        }
        EndFed {
            used,
            step: Ok(silence::<D>()),
        }
    }

    // Takes the bytes of the piece up to an FF, or one of a token.
    #[inline(always)]
    fn take_front(&mut self, piece: &[u8]) -> EndFed<RecordEvent, LastingReply<D::Reply>>
        requires some { 0 < length piece.now }
        requires fits { self.old.taken + length piece.now < 2 ^ 64 }
        ensures { IsFrontTaken (on D.Commands.rules D.does) self.old piece.now self.new result }
    {
        let count = self.run_length(piece);
        if count > 0 {
            if self.passing.is_some() {
                return self.pass_run(&piece[..count]);
            }
            return self.read_run(&piece[..count]);
        }
        if self.ends_here(piece) {
            return self.read_end();
        }
        EndFed {
            used: 1,
            step: self.take_byte(piece[0]),
        }
    }

    // Whether it goes on, and writes and tells nothing.
    #[inline(always)]
    fn is_silent(&self, step: &Result<LastingStep<D::Reply>, Refusal>) -> bool
        ensures silent { result ≡ true → (gave : LastingStep D.Reply)
            × (step.now ≡ Ok gave) × (gave.event ≡ None)
            × (bytes_written (on D.Commands.rules D.does) self.now gave.reply ≡ []) }
        ensures other { result ≡ false → IfOk step.now (λ gave. gave.event ≡ None
            → bytes_written (on D.Commands.rules D.does) self.now gave.reply ≡ [] → ⊥) }
    {
        match step {
            Ok(step) => self.is_quiet(step),
            Err(_) => false,
        }
    }

    // Whether nothing is written and told.
    #[inline(always)]
    fn is_quiet(&self, step: &LastingStep<D::Reply>) -> bool
        ensures silent { result ≡ true → (step.now.event ≡ None)
            × (bytes_written (on D.Commands.rules D.does) self.now step.now.reply ≡ []) }
        ensures other { result ≡ false → step.now.event ≡ None
            → bytes_written (on D.Commands.rules D.does) self.now step.now.reply ≡ [] → ⊥ }
    {
        step.event.is_none() && self.bytes(&step.reply).is_empty()
    }
}

//! What drives an end of a session by the bytes that come, whatever reacts to their items.
ghost use Rattle.std.specs.Prelude.{IsTrue, ◌↔◌, ◌≡◌, ◌≢◌, ◌<◌, ◌≤◌, ◌+◌, ◌^◌, [], None, Err, IfOk, OnErr, length, take, true, false};
ghost use Rattle.ws_end.specs.Ends.{refused_byte};
ghost use Rattle.ws_end.specs.driver.Driven.{AtDriver, DriverFeeds, TakesPrefix, DriverPushes, DriverTakes, IsNewsTaken, IsSettled, IsSilent, IsReached, TakesNoMore, driving};
ghost use Rattle.ws_end.specs.driver.Reacting.{Settles};

mod anew;
pub(crate) mod halt;
pub(crate) mod reacts;

use crate::end_step::{EndFed, EndStep};
use crate::{Halt, Reacts, Refusal};
use std::marker::Model;
use std::mem;
use ws_code::Reason;
use ws_record::{Advance, Live, News};

/// An end of a session: it takes bytes, and has what reacts do what their items ask for.
///
/// A contract sees it as the record `Driven`.
#[derive(Drop)]
pub struct Driver<R: Reacts> {
    pub(crate) live: Live<R::Body>,
    /// Of the open record.
    collector: R::Collector,
    pub(crate) reacts: R,
    /// Why it takes no more bytes.
    pub(crate) ended: Option<Refusal>,
}

impl<R: Reacts> Model for Driver<R> {
    ghost use Rattle.ws_end.specs.driver.Driven.{Driven};

    ghost Value = { Driven R R.Collector R.Body.Place };

    ghost view = { λ d. record { live = d.live; collector = d.collector; reacts = d.reacts; ended = d.ended } };
}

impl<R: Reacts> Driver<R> {
    /// One that has taken no byte.
    pub fn of(reacts: R, collector: R::Collector) -> Self
        requires { R.Collector.keeper.holds collector [] [] }
        ensures { (state : R.does.State) → R.does.stands reacts [] state
            → IsReached (driving R.Body.rules R.Collector.keeper R.does) result [] [] state }
    {
        Driver {
            live: Live::new(),
            collector,
            reacts,
            ended: None,
        }
    }

    /// What reacts.
    pub fn reacts(&self) -> &R
        ensures { result.now ≡ self.now.reacts }
    {
        &self.reacts
    }

    /// Puts this in the place of what reacts, and gives that.
    pub fn replace(&mut self, reacts: R) -> R
        ensures was { result ≡ self.old.reacts }
        ensures now { self.new ≡ record self.old { reacts = reacts } }
    {
        mem::replace(&mut self.reacts, reacts)
    }

    /// How many bytes it has taken, one that it refused among them.
    pub fn taken(&self) -> u64
        ensures count { result ≡ self.now.live.taken }
        ensures led { AtDriver (driving R.Body.rules R.Collector.keeper R.does) self.now
            (λ bytes items state. result ≡ length bytes) }
    {
        self.live.taken()
    }

    /// The byte that it has refused, counted from 0, and the reason. None while it takes bytes, and where it takes no
    /// more for their number alone or for want of memory.
    pub fn refused(&self) -> Option<(u64, Reason)>
        ensures { result ≡ refused_byte self.now.ended }
    {
        match self.ended {
            Some(Refusal::At { place, reason }) => Some((place, reason)),
            _ => None,
        }
    }

    /// Takes bytes of the piece, up to and with the first at which it writes or tells something or that it refuses, or
    /// all. At those before it neither writes nor tells anything.
    ///
    /// # Errors
    ///
    /// `At` the first byte after which the bytes begin no stream, or the last byte of an item that is refused; `Memory`
    /// where a growth was refused at a byte. What is seen of it is then as it was, and it answers `Failed` from then
    /// on, as after 18,446,744,073,709,551,615 bytes.
    pub fn feed(&mut self, piece: &[u8]) -> EndFed<R::Event, R::Reply>
        ensures { DriverFeeds (driving R.Body.rules R.Collector.keeper R.does)
            self.old piece.now self.new result }
    {
        if self.ended.is_some() {
            return EndFed {
                used: 0,
                step: Err(Refusal::Failed),
            };
        }
        let room = u64::MAX - self.live.taken();
        if room == 0 {
            self.ended = Some(Refusal::Failed);
            return EndFed {
                used: 0,
                step: Err(Refusal::Failed),
            };
        }
        let count = room.min(piece.len() as u64) as usize;
        self.take(&piece[..count])
    }

    /// Takes a byte, and gives what it writes and tells: at a command's last byte, at a record's IAC EOR, and nothing
    /// elsewhere.
    ///
    /// # Errors
    ///
    /// As `feed`.
    pub fn take_byte(&mut self, byte: u8) -> Result<EndStep<R::Event, R::Reply>, Refusal>
        ensures { DriverPushes (driving R.Body.rules R.Collector.keeper R.does)
            self.old byte self.new result }
    {
        self.feed(&[byte]).step
    }

    /// Whether it takes no more bytes: it has refused one, or has taken 18,446,744,073,709,551,615.
    pub fn is_shut(&self) -> bool
        ensures { IsTrue result ↔ TakesNoMore self.now }
    {
        self.ended.is_some() || self.live.taken() == u64::MAX
    }

    // Takes bytes that can be counted.
    fn take(&mut self, piece: &[u8]) -> EndFed<R::Event, R::Reply>
        requires works { self.old.ended ≡ None }
        requires fits { self.old.live.taken + length piece.now < 2 ^ 64 }
        ensures within { result.used ≤ length piece.now }
        ensures some { 0 < length piece.now
            → result.step ≢ Err Refusal.Failed → 0 < result.used }
        ensures whole { IfOk result.step (λ step. R.does.written self.new.reacts step.reply ≡ []
            → step.event ≡ None → result.used ≡ length piece.now) }
        ensures taken { DriverTakes (driving R.Body.rules R.Collector.keeper R.does)
            self.old (take result.used piece.now) self.new result.step }
        ensures stays { length piece.now ≤ 1
            → OnErr result.step (self.new.reacts ≡ self.old.reacts) }
    {
        let mut used = 0;
        while used < piece.len() {
            let prefix = self.take_prefix(&piece[used..]);
            used += prefix.used;
            if !self.is_silent(&prefix.step) {
                return EndFed {
                    used,
                    step: prefix.step,
                };
            }
        }
        EndFed {
            used,
            step: Ok(EndStep {
                reply: R::silence(),
                event: None,
            }),
        }
    }

    // Takes a prefix of the piece, as `Live::advance` does, and does what its last byte asks for.
    #[inline(always)]
    pub(crate) fn take_prefix(&mut self, piece: &[u8]) -> EndFed<R::Event, R::Reply>
        requires { 0 < length piece.now }
        ensures { TakesPrefix (driving R.Body.rules R.Collector.keeper R.does)
            self.old piece.now self.new result }
    {
        let Advance { used, news } = self.live.advance(piece, &mut self.collector);
        let done = self.react(news);
        let step = self.settle(done);
        EndFed { used, step }
    }

    // Does what news ask for that came with the last byte taken.
    #[inline(always)]
    fn react(&mut self, news: News) -> Result<EndStep<R::Event, R::Reply>, Halt>
        ensures taken { IsNewsTaken (driving R.Body.rules R.Collector.keeper R.does)
            self.old news self.new result }
        ensures settled { Settles R.does self.old.reacts self.new.reacts result }
        // No byte is counted for it, and none ends it yet.
        ensures same { (self.new.live.taken ≡ self.old.live.taken)
            × (self.new.ended ≡ self.old.ended) }
    {
        match news {
            News::More | News::Unit | News::Open(_) => Ok(EndStep {
                reply: R::silence(),
                event: None,
            }),
            News::Close(head) => self.reacts.record(head, &mut self.collector),
            News::Telnet(word) => match self.live.telnet(word) {
                Some(token) => self.reacts.telnet(&token),
                None => Err(Halt::Failed),
            },
            News::Refused(reason) => Err(Halt::Refused(reason)),
            News::NoMemory => Err(Halt::Memory),
            News::Failed => Err(Halt::Failed),
        }
    }

    // Whether it writes and tells nothing.
    fn is_silent(&self, step: &Result<EndStep<R::Event, R::Reply>, Refusal>) -> bool
        ensures silent { result ≡ true
            → IsSilent (driving R.Body.rules R.Collector.keeper R.does) self.now.reacts step.now }
        ensures other { result ≡ false → IfOk step.now (λ step.
            R.does.written self.now.reacts step.reply ≡ [] → step.event ≡ None → ⊥) }
    {
        match step {
            Ok(step) => step.event.is_none() && self.reacts.bytes(&step.reply).is_empty(),
            Err(_) => false,
        }
    }

    // Ends where the last byte taken is refused.
    #[inline(always)]
    fn settle(
        &mut self,
        done: Result<EndStep<R::Event, R::Reply>, Halt>,
    ) -> Result<EndStep<R::Event, R::Reply>, Refusal>
        ensures { IsSettled (driving R.Body.rules R.Collector.keeper R.does)
            self.old done self.new result }
    {
        let why = match done {
            Ok(step) => return Ok(step),
            Err(Halt::Refused(reason)) => Refusal::At {
                place: self.live.taken().saturating_sub(1),
                reason,
            },
            Err(Halt::Memory) => Refusal::Memory,
            Err(Halt::Failed) => Refusal::Failed,
        };
        self.ended = Some(why);
        Err(why)
    }
}

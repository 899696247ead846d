//! Runs of data bytes that come to a station that no record ends.
ghost use Rattle.std.specs.Prelude.{◌≡◌, ◌<◌, ◌≤◌, ◌+◌, ◌^◌, ◌∷◌, [], None, IsSome, length, take, true};
ghost use Rattle.ws_end.specs.driver.Driven.{DriverFeeds};
ghost use Rattle.ws_end.specs.station.Displays.{on_display as on};
ghost use Rattle.ws_end.specs.station.StationReacting.{station_driving};
ghost use Rattle.ws_lasting.specs.Fronts.{IsFrontTaken};
ghost use Rattle.ws_record.specs.Taking.{ArePlain};

use super::hearing::silence;
use crate::{LastingReply, LastingStation, RecordEvent};
use ws_code::Code;
use ws_session::{Applied, EndFed, EndStep, Refusal, StationDisplay};
use ws_telnet::{EOR, IAC};

impl<D: StationDisplay> LastingStation<D> {
    // How many bytes the piece has before its first FF, where no token has begun.
    pub(super) fn run_length(&self, piece: &[u8]) -> usize
        ensures within { result ≤ length piece.now }
        ensures plain { ArePlain (take result piece.now) }
        ensures between { 0 < result → self.now.begun ≡ [] }
    {
        if self.tokens.is_inside() {
            return 0;
        }
        for (index, byte) in piece.iter().enumerate() {
            if *byte == IAC {
                return index;
            }
        }
        piece.len()
    }

    // Takes a run where it passes over a record.
    pub(super) fn pass_run(&mut self, run: &[u8]) -> EndFed<RecordEvent, LastingReply<D::Reply>>
        requires some { 0 < length run.now }
        requires plain { ArePlain run.now }
        requires fits { self.old.taken + length run.now < 2 ^ 64 }
        requires between { self.old.begun ≡ [] }
        requires passes { IsSome self.old.passing }
        ensures { IsFrontTaken (on D.Commands.rules D.does) self.old run.now self.new result }
    {
        self.count(run.len());
        EndFed {
            used: run.len(),
            step: Ok(silence::<D>()),
        }
    }

    // Takes a run where it reads.
    pub(super) fn read_run(&mut self, run: &[u8]) -> EndFed<RecordEvent, LastingReply<D::Reply>>
        requires some { 0 < length run.now }
        requires plain { ArePlain run.now }
        requires fits { self.old.taken + length run.now < 2 ^ 64 }
        requires between { self.old.begun ≡ [] }
        requires reads { self.old.passing ≡ None }
        ensures { IsFrontTaken (on D.Commands.rules D.does) self.old run.now self.new result }
    {
        let _is = &self.taken;
        let EndFed { used, step } = self.hear_run(run);
        self.count(used);
        match step {
            Ok(step) => {
                self.grow(used);
                EndFed {
                    used,
                    step: Ok(EndStep {
                        reply: LastingReply::Station(step.reply),
                        event: None,
                    }),
                }
            }
            Err(Refusal::At { place: _, reason }) => {
                self.grow(used.saturating_sub(1));
                EndFed {
                    used,
                    step: self.refuse(reason, false),
                }
            }
            Err(Refusal::Failed) => EndFed {
                used,
                step: self.stop(Refusal::Failed),
            },
            Err(Refusal::Memory) => EndFed {
                used,
                step: self.stop(Refusal::Memory),
            },
        }
    }

    // Whether it reads, no token has begun, and the piece begins with an EOR.
    #[inline(always)]
    pub(super) fn ends_here(&self, piece: &[u8]) -> bool
        ensures between { result ≡ true → self.now.begun ≡ [] }
        ensures reads { result ≡ true → self.now.passing ≡ None }
        ensures end { result ≡ true → take 2 piece.now ≡ IAC ∷ EOR ∷ [] }
    {
        if self.tokens.is_inside() || self.passing.is_some() {
            return false;
        }
        matches!(piece, [IAC, EOR, ..])
    }

    // Takes an EOR where it reads.
    pub(super) fn read_end(&mut self) -> EndFed<RecordEvent, LastingReply<D::Reply>>
        requires fits { self.old.taken + 2 < 2 ^ 64 }
        requires between { self.old.begun ≡ [] }
        requires reads { self.old.passing ≡ None }
        ensures { IsFrontTaken (on D.Commands.rules D.does)
            self.old (IAC ∷ EOR ∷ []) self.new result }
    {
        let EndFed { used, step } = self.hear_run(&[IAC, EOR]);
        self.count(used);
        match step {
            Ok(step) => {
                self.close(RecordEvent::CarriedOut);
                EndFed {
                    used,
                    step: Ok(EndStep {
                        reply: LastingReply::Station(step.reply),
                        event: Some(RecordEvent::CarriedOut),
                    }),
                }
            }
            Err(Refusal::At { place: _, reason }) => EndFed {
                used,
                step: self.refuse(reason, true),
            },
            Err(Refusal::Failed) => EndFed {
                used,
                step: self.stop(Refusal::Failed),
            },
            Err(Refusal::Memory) => EndFed {
                used,
                step: self.stop(Refusal::Memory),
            },
        }
    }

    // Hands the station bytes.
    fn hear_run(&mut self, run: &[u8]) -> EndFed<Applied, D::Reply>
        ensures heard { DriverFeeds (station_driving (on D.Commands.rules D.does))
            self.old.station run.now self.new.station result }
        ensures same { self.new ≡ record self.old { station = self.new.station } }
    {
        self.station.feed(run)
    }
}

//! The steps of a station that no record ends, each of which writes one part of it.
ghost use Rattle.std.specs.Prelude.{◌≡◌, ◌&&◌, ◌<◌, ◌≤◌, ◌+◌, ◌-◌, ◌^◌, ◌∷◌, ℕ, List, [], None, Some, Err, OnErr, length};
ghost use Rattle.ws_lasting.specs.Counting.{IsCounted};
ghost use Rattle.ws_lasting.specs.Footings.{told_place};
ghost use Rattle.ws_lasting.specs.Lasting.{IsTokenStep};
ghost use Rattle.ws_lasting.specs.Negative.{is_of_record as spec_of_record};
ghost use Rattle.ws_nego.specs.Options.{telnet_bytes};
ghost use Rattle.ws_nego.specs.Station.{station_answer, station_allows_records};
ghost use Rattle.ws_record.specs.declared.record.Item.{Item};
ghost use Rattle.ws_end.specs.declared.refusal.Refusal.{Refusal as ARefusal};
ghost use Rattle.ws_end.specs.driver.Driven.{DriverPushes};
ghost use Rattle.ws_end.specs.station.Displays.{EndStateOn};
ghost use Rattle.ws_end.specs.station.Displays.{on_display as on};
ghost use Rattle.ws_end.specs.station.StationReacting.{StationStands, station_driving};
ghost use Rattle.ws_end.specs.station.Stations.{AtStationOn, IsKeyedOn, ReachedOn};

use crate::negative::is_of_record;
use crate::{LastingStation, LastingStep, RecordEvent, RefusedRecord};
use ws_code::{Code, Push, Reason};
use ws_keys::Answer;
use ws_session::{Applied, EndStep, KeyFault, Refusal, StationDisplay};
use ws_telnet::{Telnet, Token};

// At which byte the last record was refused that was told as refused.
fn last_place(place: u64, event: RecordEvent, last: Option<u64>) -> Option<u64>
    ensures { result ≡ told_place place (Some event) last }
{
    match event {
        RecordEvent::Refused(_) => Some(place),
        RecordEvent::CarriedOut => last,
    }
}

impl<D: StationDisplay> LastingStation<D> {
    // Hands the station a key.
    pub(super) fn press(&mut self, key: D::Key) -> Result<Option<Answer>, KeyFault>
        ensures keyed { AtStationOn (on D.Commands.rules D.does) self.old.station
            (λ bytes items state. length bytes + 1 < 2 ^ 64
            → IsKeyedOn (on D.Commands.rules D.does)
            self.old.station self.new.station bytes items state key result) }
        ensures same { self.new ≡ record self.old { station = self.new.station } }
        ensures kept { OnErr result (self.new ≡ self.old) }
    {
        self.station.key(key)
    }

    // Counts bytes.
    pub(super) fn count(&mut self, bytes: usize)
        requires room { self.old.taken + bytes < 2 ^ 64 }
        ensures { self.new ≡ record self.old { taken = self.old.taken + bytes } }
    {
        self.taken += bytes as u64;
    }

    // What a byte makes of tokens.
    pub(super) fn step(&mut self, byte: u8) -> Push<Token>
        ensures step { IsTokenStep self.old.begun byte self.new.begun result }
        ensures same { self.new ≡ record self.old { begun = self.new.begun } }
    {
        let word = self.tokens.push(byte);
        if !matches!(word, Push::More) {
            self.tokens.restart(());
        }
        word
    }

    // Hands the station a byte.
    pub(super) fn hear(&mut self, byte: u8) -> Result<EndStep<Applied, D::Reply>, Refusal>
        ensures heard { DriverPushes (station_driving (on D.Commands.rules D.does))
            self.old.station byte self.new.station result }
        ensures same { self.new ≡ record self.old { station = self.new.station } }
    {
        self.station.take_byte(byte)
    }

    // Has the station begin anew.
    pub(super) fn revive(&mut self)
        ensures led { (items : List (Item D.Commands.Unit)) (state : EndStateOn D.Happened)
            → StationStands D.does self.old.station.reacts items state
            → ReachedOn (on D.Commands.rules D.does) self.new.station [] [] state }
        ensures same { self.new ≡ record self.old { station = self.new.station } }
    {
        self.station.revive();
    }

    // Answers a Telnet command.
    pub(super) fn answer(&mut self, token: &Telnet) -> D::Reply
        ensures reply { D.does.written self.new.station.reacts.screen result
            ≡ telnet_bytes (station_answer self.old.station.reacts.options token.now).reply }
        ensures options { self.new ≡ record self.old {
          station = record self.old.station {
            reacts = record self.old.station.reacts {
              options = (station_answer self.old.station.reacts.options token.now).after;
            };
          };
        } }
    {
        self.station.answer_telnet(token)
    }

    // Whether records are allowed.
    pub(super) fn allows_records(&self) -> bool
        ensures { result ≡ station_allows_records self.now.station.reacts.options }
    {
        self.station.is_ready()
    }

    // Whether it goes on after a record that is refused for this reason.
    pub(super) fn may_pass_over(&self, reason: Reason) -> bool
        ensures { result ≡ (spec_of_record reason
            && station_allows_records self.now.station.reacts.options) }
    {
        is_of_record(reason) && self.allows_records()
    }

    // The record that is refused at the next of its bytes.
    pub(super) fn refused_here(&self, reason: Reason) -> RefusedRecord
        ensures { result ≡ record { reason = reason; place = self.now.size } }
    {
        RefusedRecord {
            reason,
            place: self.size,
        }
    }

    // Counts bytes of the open record.
    pub(super) fn grow(&mut self, bytes: usize)
        requires room { self.old.size + bytes ≤ self.old.taken }
        ensures { self.new ≡ record self.old { size = self.old.size + bytes } }
    {
        let _taken = self.taken;
        self.size += bytes as u64;
    }

    // Passes over the rest of a record, which is refused at the last byte taken.
    pub(super) fn pass_over(&mut self, why: RefusedRecord)
        ensures { self.new
            ≡ record self.old { passing = Some why; passing_from = self.old.taken - 1 } }
    {
        self.passing = Some(why);
        self.passing_from = self.taken.saturating_sub(1);
    }

    // Reads on after a record, of which this is told.
    pub(super) fn close(&mut self, event: RecordEvent)
        ensures same { self.new ≡ record self.old {
          size = 0;
          passing = None;
          counts = self.new.counts;
          refused_at = told_place self.old.passing_from (Some event) self.old.refused_at;
        } }
        ensures counted { IsCounted self.old.counts (event ∷ []) self.new.counts }
    {
        self.size = 0;
        self.passing = None;
        self.counts = self.counts.with(event);
        self.refused_at = last_place(self.passing_from, event, self.refused_at);
    }

    // Takes no more bytes.
    pub(super) fn stop(&mut self, why: Refusal) -> Result<LastingStep<D::Reply>, Refusal>
        ensures result { result ≡ Err why }
        ensures end { self.new ≡ record self.old { ended = Some why } }
    {
        self.ended = Some(why);
        Err(why)
    }

    // Refuses the last byte taken, and takes no more.
    pub(super) fn end(&mut self, reason: Reason) -> Result<LastingStep<D::Reply>, Refusal>
        ensures result { result ≡ Err (ARefusal.At (self.old.taken - 1) reason) }
        ensures end { self.new
            ≡ record self.old { ended = Some (ARefusal.At (self.old.taken - 1) reason) } }
    {
        let place = self.taken.saturating_sub(1);
        self.stop(Refusal::At { place, reason })
    }
}

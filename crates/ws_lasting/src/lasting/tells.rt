//! What a station that no record ends tells of itself.
ghost use Rattle.std.specs.Prelude.{IsTrue, ◌↔◌, ◌≡◌, ◌+◌, ◌^◌, ◌<◌, [], Err, IfErr, IsSome, OnOk};
ghost use Rattle.ws_lasting.specs.Footings.{AtLasting, bytes_written};
ghost use Rattle.ws_nego.specs.Station.{station_allows_records};
ghost use Rattle.ws_end.specs.Ends.{IsShut, refused_byte};
ghost use Rattle.ws_end.specs.station.Displays.{on_display as on};

use crate::{LastingReply, LastingStation, RefusedRecord};
use ws_code::{Code, Fault, Reason};
use ws_screen::Screen;
use ws_session::{Refusal, StationDisplay};

impl<D: StationDisplay> LastingStation<D> {
    /// The display.
    pub fn display(&self) -> &D
        ensures { result.now ≡ self.now.station.reacts.screen }
    {
        self.station.display()
    }

    /// The bytes of what it has just written.
    pub fn bytes<'a>(&'a self, reply: &'a LastingReply<D::Reply>) -> &'a [u8]
        ensures { result.now ≡ bytes_written (on D.Commands.rules D.does) self.now reply.now }
    {
        match reply {
            LastingReply::Station(reply) => self.display().bytes(reply),
            LastingReply::Environ => self.environ_reply.as_slice(),
        }
    }

    /// The screen.
    pub fn screen(&self) -> &Screen
        ensures { result.now ≡ D.does.shown self.now.station.reacts.screen }
    {
        self.station.screen()
    }

    /// Whether the negotiation has come so far that records may be sent both protocol_of (RFC 1205, section 2).
    pub fn is_ready(&self) -> bool
        ensures { result ≡ station_allows_records self.now.station.reacts.options }
    {
        self.station.is_ready()
    }

    /// How many alarms the host has sounded, up to 18,446,744,073,709,551,615.
    pub fn alarms(&self) -> u64
        ensures { result ≡ D.does.sounded self.now.station.reacts.screen }
    {
        self.station.alarms()
    }

    /// How many records were carried out.
    pub fn records(&self) -> u64
        ensures { result ≡ self.now.counts.carried_out }
    {
        self.counts.carried_out
    }

    /// How many records were refused, and answered by a negative response.
    pub fn refused_records(&self) -> u64
        ensures { result ≡ self.now.counts.refused }
    {
        self.counts.refused
    }

    /// The last record that was refused.
    pub fn last_refusal(&self) -> Option<RefusedRecord>
        ensures { result ≡ self.now.counts.last }
    {
        self.counts.last
    }

    /// The byte of the session, counted from 0, at which the last record was refused that was told as refused; None
    /// while there is none. `RefusedRecord::place` counts the record's own bytes instead.
    pub fn refused_at(&self) -> Option<u64>
        ensures { result ≡ self.now.refused_at }
    {
        self.refused_at
    }

    /// How many bytes it has taken, one that ended the session among them.
    pub fn taken(&self) -> u64
        ensures { result ≡ self.now.taken }
    {
        self.taken
    }

    /// The byte that has ended the session, counted from 0, and the reason. None while it takes bytes, and where it
    /// takes no more for their number alone.
    pub fn refused(&self) -> Option<(u64, Reason)>
        ensures { result ≡ refused_byte self.now.ended }
    {
        match self.ended {
            Some(Refusal::At { place, reason }) => Some((place, reason)),
            _ => None,
        }
    }

    /// Whether it takes no more bytes.
    pub fn is_shut(&self) -> bool
        ensures { IsTrue result ↔ IsShut self.now.ended self.now.taken }
    {
        self.ended.is_some() || self.taken == u64::MAX
    }

    /// Asks whether the stream may end here.
    ///
    /// # Errors
    ///
    /// `Truncated` after so many bytes, where they end inside a token or a record, also one that is passed over;
    /// `Failed` where it takes no more.
    pub fn finish(&self) -> Result<(), Fault>
        ensures ok { OnOk result (AtLasting (on D.Commands.rules D.does) self.now (λ at.
            (at.so_far ≡ []) × (at.begun ≡ []))) }
        ensures truncated { IfErr result (λ fault.
            AtLasting (on D.Commands.rules D.does) self.now (λ at.
            self.now.taken + 1 < 2 ^ 64 → (fault ≡ Fault.Truncated self.now.taken)
            × ((at.so_far ≡ []) → (at.begun ≡ []) → ⊥))) }
        ensures failed { IsShut self.now.ended self.now.taken → result ≡ Err Fault.Failed }
    {
        if self.is_shut() {
            return Err(Fault::Failed);
        }
        if self.tokens.is_inside() || self.size != 0 || self.passing.is_some() {
            return Err(Fault::Truncated { at: self.taken });
        }
        Ok(())
    }
}

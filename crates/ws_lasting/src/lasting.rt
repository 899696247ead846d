//! A station that no record ends.
ghost use Rattle.std.specs.Prelude.{◌≡◌, ◌&&◌, ◌≢◌, ◌≤◌, ◌<◌, ◌+◌, ◌-◌, ◌^◌, ◌∷◌, ℕ, [], None, Some, Err, IfErr, IfOk, IsSome, OnErr, OnOk};
ghost use Rattle.ws_identity.specs.Environ.{new_environ};
ghost use Rattle.ws_lasting.specs.Behaviour.{LastingTraces};
ghost use Rattle.ws_lasting.specs.Footings.{AtLasting, IsByteTaken, IsEndedFor, IsKeyHeard, IsRefusalPlacedSo, IsPushedSo, StandsAt, StaysShut};
ghost use Rattle.ws_lasting.specs.Lasting.{new_footing};
ghost use Rattle.ws_end.specs.Acts.{Did};
ghost use Rattle.ws_end.specs.Ends.{IsShut};
ghost use Rattle.ws_end.specs.declared.refusal.Refusal.{Refusal as ARefusal};
ghost use Rattle.ws_end.specs.declared.station.key_fault.KeyFault.{KeyFault as AKeyFault};
ghost use Rattle.ws_end.specs.station.AnswerSpelling.{sent_by};
ghost use Rattle.ws_end.specs.station.Displays.{on_display as on};
ghost use Rattle.ws_end.specs.station.StationTransitions.{new_state_on};

mod feeding;
mod hearing;
mod identity;
mod passing;
mod runs;
mod steps;
mod tells;

use crate::{LastingReply, LastingStep, RecordCounts, RefusedRecord};
use arrayvec::ArrayVec;
use std::marker::Model;
use ws_code::{ByteList, Code};
use ws_identity::{Environ, Identity, Reply};
use ws_keys::Answer;
use ws_nego::TerminalType;
use ws_session::{KeyFault, Refusal, StationDisplay, StationOn};
use ws_telnet::Tokens;

/// A station that goes on after a record that it refuses.
#[derive(Drop)]
pub struct LastingStation<D: StationDisplay> {
    station: StationOn<D>,
    tokens: Tokens,
    /// How many bytes of the open record have come.
    size: u64,
    /// Why the record is refused that is passed over.
    passing: Option<RefusedRecord>,
    /// The byte of the session at which that record is refused.
    passing_from: u64,
    counts: RecordCounts,
    /// The byte of the session at which the last record was refused that was told as refused.
    refused_at: Option<u64>,
    taken: u64,
    /// Why it takes no more bytes.
    ended: Option<Refusal>,
    /// NEW-ENVIRON, where it has an identity.
    environ: Option<Environ>,
    /// What that answered last.
    environ_reply: Reply,
}

impl<D: StationDisplay> Model for LastingStation<D> {
    ghost use Rattle.std.specs.Prelude.{◌≤◌};
    ghost use Rattle.ws_code.specs.Code.{IsUnfinished};
    ghost use Rattle.ws_lasting.specs.Footings.{LastingParts};
    ghost use Rattle.ws_telnet.specs.Machine.{unfinished_token};
    ghost use Rattle.ws_telnet.specs.Token.{token_rules};

    ghost Value = { LastingParts D D.Commands.Place };

    ghost view = { λ s. record {
      station = s.station;
      begun = unfinished_token s.tokens;
      size = s.size;
      passing = s.passing;
      passing_from = s.passing_from;
      counts = s.counts;
      refused_at = s.refused_at;
      taken = s.taken;
      ended = s.ended;
      environ = s.environ;
      environ_reply = s.environ_reply;
    } };

    // A token has begun or not, and the open record's bytes were taken.
    ghost invariant = { λ s. IsUnfinished token_rules tt (unfinished_token s.tokens) × (s.size ≤ s.taken) };
}

impl<D: StationDisplay> LastingStation<D> {
    /// A station that has taken no byte and no key. It has no identity, and refuses NEW-ENVIRON.
    pub fn new(terminal: TerminalType) -> Self
        ensures stands { StandsAt (on D.Commands.rules D.does) result
            (new_footing (new_state_on D.does terminal) None) }
        ensures counts { result.counts ≡ record { carried_out = 0; refused = 0; last = None } }
        ensures taken { result.taken ≡ 0 }
        ensures none { result.refused_at ≡ None }
    {
        Self::start(terminal, None)
    }

    /// One with an identity, which it tells a host that asks for it by NEW-ENVIRON (RFC 1572, RFC 4777).
    pub fn with_identity(terminal: TerminalType, identity: Identity) -> Self
        ensures stands { StandsAt (on D.Commands.rules D.does) result
            (new_footing (new_state_on D.does terminal) (Some (new_environ identity))) }
        ensures counts { result.counts ≡ record { carried_out = 0; refused = 0; last = None } }
        ensures taken { result.taken ≡ 0 }
        ensures none { result.refused_at ≡ None }
    {
        Self::start(terminal, Some(Environ::new(identity)))
    }

    fn start(terminal: TerminalType, environ: Option<Environ>) -> Self
        ensures stands { StandsAt (on D.Commands.rules D.does) result
            (new_footing (new_state_on D.does terminal) environ) }
        ensures counts { result.counts ≡ record { carried_out = 0; refused = 0; last = None } }
        ensures taken { result.taken ≡ 0 }
        ensures none { result.refused_at ≡ None }
    {
        LastingStation {
            station: StationOn::new(terminal),
            tokens: Tokens::start(()),
            size: 0,
            passing: None,
            passing_from: 0,
            counts: RecordCounts::new(),
            refused_at: None,
            taken: 0,
            ended: None,
            environ,
            environ_reply: ByteList::of(ArrayVec::new()),
        }
    }

    /// Takes a byte, and gives what it writes and tells: at a command's last byte, at a record's IAC EOR, and nothing
    /// elsewhere. A record that is refused, while records are allowed, is answered there by a negative response; all
    /// else is as it was before the record, but for keys pressed meanwhile.
    ///
    /// # Errors
    ///
    /// `At` the first byte after which the bytes are no tokens, that a record has which comes while records aren't
    /// allowed and is refused, or at which one ends that isn't allowed any more. Display and records are then as
    /// before that byte, and it answers `Failed` from then on, as after 18,446,744,073,709,551,615 bytes.
    pub fn take_byte(&mut self, byte: u8) -> Result<LastingStep<D::Reply>, Refusal>
        ensures taken { AtLasting (on D.Commands.rules D.does) self.old (λ at.
            self.old.taken + 1 < 2 ^ 64
            → IsByteTaken (on D.Commands.rules D.does) self.old self.new at byte result) }
        ensures placed { IsRefusalPlacedSo self.old self.old.taken self.new result }
        ensures counted { OnOk result (self.new.taken ≡ self.old.taken + 1) }
        ensures after { OnErr result (IsSome self.new.ended) }
        ensures left { IfErr result (λ why. IsEndedFor self.old self.new why) }
        ensures shut { IsShut self.old.ended self.old.taken → StaysShut self.old self.new }
        ensures full { self.old.taken + 1 ≡ 2 ^ 64 → result ≡ Err ARefusal.Failed }
        ensures failed { IsSome self.old.ended → result ≡ Err ARefusal.Failed }
    {
        if self.ended.is_some() {
            return Err(Refusal::Failed);
        }
        if self.taken == u64::MAX {
            return self.stop(Refusal::Failed);
        }
        let word = self.step(byte);
        self.count(1);
        match self.passing {
            None => self.read(byte, word),
            Some(why) => self.pass(why, word),
        }
    }

    /// Takes a byte, and gives what it writes.
    ///
    /// # Errors
    ///
    /// As `take_byte`.
    pub fn push(&mut self, byte: u8) -> Result<LastingReply<D::Reply>, Refusal>
        ensures { IsPushedSo (on D.Commands.rules D.does) self.old byte self.new result }
    {
        match self.take_byte(byte) {
            Ok(step) => Ok(step.reply),
            Err(why) => Err(why),
        }
    }

    /// Takes a key, and gives what it sends. It acts on the display at once, also while a record is open or passed
    /// over.
    ///
    /// # Errors
    ///
    /// As the station on that display does.
    pub fn key(&mut self, key: D::Key) -> Result<Option<Answer>, KeyFault>
        ensures keyed { AtLasting (on D.Commands.rules D.does) self.old (λ at.
            self.old.taken + 1 < 2 ^ 64
            → IsKeyHeard (on D.Commands.rules D.does) self.old self.new at key result) }
        // So keys are acts, as bytes are.
        ensures acted { IfOk result (λ answer. LastingTraces (on D.Commands.rules D.does)
            self.old (Did key ∷ []) (sent_by answer) [] self.new) }
        ensures shut { IsShut self.old.ended self.old.taken → result ≡ Err AKeyFault.Failed }
        ensures same { OnErr result (self.new ≡ self.old) }
        ensures others { self.new ≡ record self.old { station = self.new.station } }
    {
        if self.is_shut() {
            return Err(KeyFault::Failed);
        }
        self.press(key)
    }
}

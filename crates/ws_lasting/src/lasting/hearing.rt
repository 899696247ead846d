//! What comes of a byte where a station reads.
ghost use Rattle.std.specs.Prelude.{◌≡◌, ◌≢◌, ◌<◌, ◌-◌, ◌^◌, [], ℕ, List, None, Some, IfErr, IsSome, OnErr, length, true, false};
ghost use Rattle.ws_lasting.specs.Footings.{IsEndedFor, IsFollowed, IsRefusalPlacedSo, IsReading, IsWordHeard, LastingOf, bytes_written};
ghost use Rattle.ws_lasting.specs.Fronts.{IsWordRefused};
ghost use Rattle.ws_lasting.specs.Lasting.{Footing, IsTokenStep};
ghost use Rattle.ws_record.specs.declared.record.Item.{Item};
ghost use Rattle.ws_end.specs.station.Displays.{on_display as on};
ghost use Rattle.ws_end.specs.station.StationReacting.{StationStands};

use crate::negative::negative;
use crate::{LastingReply, LastingStation, LastingStep, RecordEvent};
use arrayvec::ArrayVec;
use ws_code::{ByteList, Code, Push, Reason};
use ws_session::{EndStep, Refusal, StationDisplay};
use ws_telnet::Token;

// A step at which nothing is written or told.
pub(super) fn silence<D: StationDisplay>() -> LastingStep<D::Reply>
    ensures written { (lasting : LastingOf (on D.Commands.rules D.does))
        → bytes_written (on D.Commands.rules D.does) lasting result.reply ≡ [] }
    ensures told { result.event ≡ None }
{
    EndStep {
        reply: LastingReply::Station(D::reply(ByteList::of(ArrayVec::new()))),
        event: None,
    }
}

// Whether it is the end of a record.
fn is_end(word: &Push<Token>) -> bool
    ensures yes { result ≡ true → word.now ≡ Push.Unit Token.Eor }
    ensures no { result ≡ false → word.now ≢ Push.Unit Token.Eor }
{
    matches!(word, Push::Unit(Token::Eor))
}

impl<D: StationDisplay> LastingStation<D> {
    // Hears the last byte taken where it reads.
    pub(super) fn read(
        &mut self,
        byte: u8,
        word: Push<Token>,
    ) -> Result<LastingStep<D::Reply>, Refusal>
        requires counted { 0 < self.old.taken }
        requires room { self.old.size < self.old.taken }
        requires few { self.old.taken < 2 ^ 64 }
        ensures heard { (at : Footing D.Happened)
            → IsReading (on D.Commands.rules D.does) self.old.station (self.old.taken - 1) at
            → IsTokenStep at.begun byte self.old.begun word → self.old.size ≡ length at.so_far
            → self.old.passing ≡ None → self.old.ended ≡ None
            → self.old.environ ≡ at.environ
            → IsWordHeard (on D.Commands.rules D.does)
            self.old.counts self.new at (self.old.taken - 1) word result }
        ensures placed { self.old.passing ≡ None
            → IsRefusalPlacedSo self.old (self.old.taken - 1) self.new result }
        ensures same { (self.new.begun ≡ self.old.begun) × (self.new.taken ≡ self.old.taken) }
        ensures after { OnErr result (IsSome self.new.ended) }
        ensures left { IfErr result (λ why. IsEndedFor self.old self.new why) }
    {
        if let Push::Bad(reason) = word {
            return self.end(reason);
        }
        let reason = match self.hear(byte) {
            Ok(step) => return Ok(self.follow(&word, step.reply)),
            Err(Refusal::At { place: _, reason }) => reason,
            Err(Refusal::Failed) => return self.stop(Refusal::Failed),
            Err(Refusal::Memory) => return self.stop(Refusal::Memory),
        };
        self.refuse(reason, is_end(&word))
    }

    // Refuses the last byte taken, with which a record ends or doesn't.
    pub(super) fn refuse(
        &mut self,
        reason: Reason,
        is_end: bool,
    ) -> Result<LastingStep<D::Reply>, Refusal>
        requires { 0 < self.old.taken }
        ensures heard { (at : Footing D.Happened) (items : List (Item D.Commands.Unit))
            (byte : ℕ) (word : Push Token)
            → StationStands D.does self.old.station.reacts items at.state
            → IsTokenStep at.begun byte self.old.begun word
            → IsWordRefused (on D.Commands.rules D.does) at word reason
            → (is_end ≡ true → word ≡ Push.Unit Token.Eor)
            → (is_end ≡ false → word ≢ Push.Unit Token.Eor)
            → self.old.size ≡ length at.so_far → self.old.ended ≡ None
            → self.old.environ ≡ at.environ
            → IsWordHeard (on D.Commands.rules D.does)
            self.old.counts self.new at (self.old.taken - 1) word result }
        ensures placed { self.old.passing ≡ None
            → IsRefusalPlacedSo self.old (self.old.taken - 1) self.new result }
        ensures same { (self.new.begun ≡ self.old.begun) × (self.new.taken ≡ self.old.taken) }
        ensures after { OnErr result (IsSome self.new.ended) }
        ensures left { IfErr result (λ why. IsEndedFor self.old self.new why) }
    {
        if !self.may_pass_over(reason) {
            return self.end(reason);
        }
        let why = self.refused_here(reason);
        self.revive();
        self.pass_over(why);
        if !is_end {
            return Ok(silence::<D>());
        }
        self.close(RecordEvent::Refused(why));
        Ok(EndStep {
            reply: LastingReply::Station(D::reply(negative(why.reason))),
            event: Some(RecordEvent::Refused(why)),
        })
    }

    // Follows the last byte taken, which isn't refused and at which the station on the display writes this.
    fn follow(&mut self, word: &Push<Token>, reply: D::Reply) -> LastingStep<D::Reply>
        requires { self.old.size < self.old.taken }
        ensures { IsFollowed (on D.Commands.rules D.does) self.old self.new word.now reply result }
    {
        match word {
            Push::Unit(Token::Data(_)) => {
                self.grow(1);
                EndStep {
                    reply: LastingReply::Station(reply),
                    event: None,
                }
            }
            Push::Unit(Token::Eor) => {
                self.close(RecordEvent::CarriedOut);
                EndStep {
                    reply: LastingReply::Station(reply),
                    event: Some(RecordEvent::CarriedOut),
                }
            }
            Push::Unit(Token::Telnet(telnet)) => EndStep {
                reply: self.replied(telnet, reply),
                event: None,
            },
            _ => EndStep {
                reply: LastingReply::Station(reply),
                event: None,
            },
        }
    }
}

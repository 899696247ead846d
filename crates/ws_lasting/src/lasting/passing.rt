//! What comes of a byte where a station passes over a record.
ghost use Rattle.std.specs.Prelude.{◌≡◌, ◌<◌, ◌-◌, ℕ, Some, None, IfErr, IsSome, OnErr};
ghost use Rattle.ws_lasting.specs.Footings.{IsEndedFor, IsPassingOver, IsRefusalPlacedSo, IsWordHeard};
ghost use Rattle.ws_lasting.specs.Lasting.{Footing, IsTokenStep};
ghost use Rattle.ws_end.specs.station.Displays.{on_display as on};

use super::hearing::silence;
use crate::negative::negative;
use crate::{LastingReply, LastingStation, LastingStep, RecordEvent, RefusedRecord};
use ws_code::{Code, Push, Reason};
use ws_session::{EndStep, Refusal, StationDisplay};
use ws_telnet::Token;

impl<D: StationDisplay> LastingStation<D> {
    // Hears the last byte taken where it passes over a record.
    pub(super) fn pass(
        &mut self,
        why: RefusedRecord,
        word: Push<Token>,
    ) -> Result<LastingStep<D::Reply>, Refusal>
        requires { 0 < self.old.taken }
        ensures heard { (at : Footing D.Happened) (byte : ℕ)
            → IsPassingOver (on D.Commands.rules D.does) self.old.station at why
            → IsTokenStep at.begun byte self.old.begun word
            → self.old.passing ≡ Some why → self.old.ended ≡ None
            → self.old.environ ≡ at.environ
            → IsWordHeard (on D.Commands.rules D.does)
            self.old.counts self.new at (self.old.taken - 1) word result }
        ensures placed { self.old.passing ≡ Some why
            → IsRefusalPlacedSo self.old (self.old.taken - 1) self.new result }
        ensures same { (self.new.begun ≡ self.old.begun) × (self.new.taken ≡ self.old.taken) }
        ensures after { OnErr result (IsSome self.new.ended) }
        ensures left { IfErr result (λ why. IsEndedFor self.old self.new why) }
    {
        match word {
            Push::More => Ok(silence::<D>()),
            Push::Unit(Token::Data(_)) => Ok(silence::<D>()),
            Push::Unit(Token::Telnet(telnet)) => {
                let reply = self.answer(&telnet);
                Ok(EndStep {
                    reply: self.replied(&telnet, reply),
                    event: None,
                })
            }
            Push::Unit(Token::Eor) => {
                if !self.allows_records() {
                    return self.end(Reason::RecordBeforeNegotiation);
                }
                self.close(RecordEvent::Refused(why));
                Ok(EndStep {
                    reply: LastingReply::Station(D::reply(negative(why.reason))),
                    event: Some(RecordEvent::Refused(why)),
                })
            }
            Push::Bad(reason) => self.end(reason),
        }
    }
}

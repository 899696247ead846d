//! A station that no record ends, as an end of a session at which keys are pressed.
ghost use Rattle.ws_lasting.specs.Behaviour.{lasting_behaviour, lasting_key_judged};
ghost use Rattle.ws_lasting.specs.Footings.{bytes_written};
ghost use Rattle.ws_lasting.specs.LastingLaws.{lasting_follows, lasting_stays};
ghost use Rattle.ws_end.specs.station.Displays.{on_display as on};

use crate::{LastingReply, LastingStation, RecordEvent};
use ws_code::Code;
use ws_keys::Answer;
use ws_session::{End, EndFed, KeyFault, Keyed, StationDisplay};

impl<D: StationDisplay> End for LastingStation<D> {
    type Request = D::Key;

    type Event = RecordEvent;

    type Reply = LastingReply<D::Reply>;

    ghost behaviour = { lasting_behaviour (on D.Commands.rules D.does) };

    ghost written = { bytes_written (on D.Commands.rules D.does) };

    fn feed(&mut self, piece: &[u8]) -> EndFed<RecordEvent, LastingReply<D::Reply>> {
        LastingStation::feed(self, piece)
    }

    fn bytes<'a>(&'a self, reply: &'a LastingReply<D::Reply>) -> &'a [u8] {
        LastingStation::bytes(self, reply)
    }

    ghost stays = { lasting_stays (on D.Commands.rules D.does) };

    ghost follows = { lasting_follows (on D.Commands.rules D.does) };
}

impl<D: StationDisplay> Keyed for LastingStation<D> {
    type Key = D::Key;

    ghost keyed = { lasting_key_judged (on D.Commands.rules D.does) };

    fn key(&mut self, key: D::Key) -> Result<Option<Answer>, KeyFault> {
        LastingStation::key(self, key)
    }
}

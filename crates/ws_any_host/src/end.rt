//! A host that takes any record, as an end of a session.
ghost use Rattle.ws_record.specs.RawBody.{raw_rules};
ghost use Rattle.ws_end.specs.ActLaws.{traces_none, goes_on};
ghost use Rattle.ws_end.specs.Acts.{protocol_of};
ghost use Rattle.ws_end.specs.driver.Driven.{TakesNoMore, transitions_of};
ghost use Rattle.ws_any_host.specs.AnyReached.{AnyReached, any_behaviour, IsAnySendRefusal, IsAnySendTaken};
ghost use Rattle.ws_any_host.specs.AnyEndState.{any_driving};

use crate::{AnyEvent, AnyHost};
use ws_nego::Reply;
use ws_record::Record;
use ws_session::{Acting, End, EndFed, SendFault, Sent};

impl End for AnyHost {
    type Request = Record<u8>;

    type Event = AnyEvent;

    type Reply = Reply;

    ghost behaviour = { any_behaviour };

    ghost written = { λ host reply. reply };

    fn feed(&mut self, piece: &[u8]) -> EndFed<AnyEvent> {
        End::feed(&mut self.driver, piece)
    }

    fn bytes<'a>(&'a self, reply: &'a Reply) -> &'a [u8] {
        reply.as_slice()
    }

    ghost stays = { traces_none (protocol_of raw_rules raw_rules (transitions_of any_driving)) AnyReached TakesNoMore };

    ghost follows = { goes_on (protocol_of raw_rules raw_rules (transitions_of any_driving)) AnyReached TakesNoMore };
}

impl Acting for AnyHost {
    ghost refrains = { IsAnySendRefusal };

    ghost acts = { IsAnySendTaken };

    ghost wants = { IsAnySendTaken };

    fn act(&mut self, request: &Record<u8>) -> Result<Sent, SendFault> {
        match self.send(request) {
            Ok(bytes) => Ok(Sent::Record(bytes)),
            Err(fault) => Err(fault),
        }
    }
}

//! What a station does at an item.
ghost use Rattle.ws_end.specs.station.StationReacting.{station_reacting};

use super::AtStation;
use crate::end_step::{Applied, EndStep};
use crate::station::body_bytes::BodyBytes;
use crate::{Halt, Reacts, StationDisplay};
use arrayvec::ArrayVec;
use ws_code::{ByteList, Reason};
use ws_record::{Head, Telnet};

impl<D: StationDisplay> Reacts for AtStation<D> {
    type Body = D::Commands;

    type Collector = BodyBytes;

    type Request = D::Key;

    type Event = Applied;

    type Reply = D::Reply;

    ghost does = { station_reacting D.does };

    fn silence() -> D::Reply {
        D::reply(ByteList::of(ArrayVec::new()))
    }

    fn bytes<'a>(&'a self, reply: &'a D::Reply) -> &'a [u8] {
        self.display.bytes(reply)
    }

    fn telnet(&mut self, token: &Telnet) -> Result<EndStep<Applied, D::Reply>, Halt> {
        Ok(EndStep {
            reply: D::reply(self.options.answer(token)),
            event: None,
        })
    }

    fn record(
        &mut self,
        head: Head,
        collector: &mut BodyBytes,
    ) -> Result<EndStep<Applied, D::Reply>, Halt> {
        if !self.options.records_allowed() {
            return Err(Halt::Refused(Reason::RecordBeforeNegotiation));
        }
        match self.display.apply(head, collector.as_slice()) {
            Ok(reply) => {
                collector.clear();
                self.records = self.records.saturating_add(1);
                Ok(EndStep {
                    reply,
                    event: Some(Applied),
                })
            }
            Err(reason) => Err(Halt::Refused(reason)),
        }
    }
}

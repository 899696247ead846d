//! What reacts at a host that takes any record.
ghost use Rattle.std.specs.Prelude.{◌≡◌, []};
ghost use Rattle.ws_any_host.specs.AnyEndState.{any_reacting, any_ready};

use crate::{AnyEvent, AnyOptions};
use arrayvec::ArrayVec;
use std::alloc::Global;
use std::marker::Model;
use std::mem;
use ws_code::{ByteList, List, Reason};
use ws_nego::Reply;
use ws_record::{Head, RawBody, Record};
use ws_session::{EndStep, Halt, Reacts};
use ws_telnet::Telnet;

/// What reacts at a host that takes any record. A contract sees it as what was negotiated.
#[derive(Drop)]
pub struct Any {
    pub(crate) alloc: Global,
    pub(crate) options: AnyOptions,
}

impl Model for Any {
    ghost use Rattle.ws_any_host.specs.AnyOptions.{Negotiated};

    ghost Value = { Negotiated };

    ghost view = { λ a. a.options };
}

impl Any {
    // That records have become allowed, and the terminal's name.
    fn ready(&self, was_allowed: bool) -> Option<AnyEvent>
        ensures { result ≡ any_ready was_allowed self.now }
    {
        if was_allowed || !self.options.records_allowed() {
            return None;
        }
        Some(AnyEvent::Ready(self.options.name()))
    }
}

impl Reacts for Any {
    type Body = RawBody;

    type Collector = Vec<u8>;

    type Request = Record<u8>;

    type Event = AnyEvent;

    type Reply = Reply;

    ghost does = { any_reacting };

    fn silence() -> Reply {
        ByteList::of(ArrayVec::new())
    }

    fn bytes<'a>(&'a self, reply: &'a Reply) -> &'a [u8] {
        reply.as_slice()
    }

    fn telnet(&mut self, token: &Telnet) -> Result<EndStep<AnyEvent>, Halt> {
        let was_allowed = self.options.records_allowed();
        match self.options.answer(token) {
            Ok(reply) => Ok(EndStep {
                reply,
                event: self.ready(was_allowed),
            }),
            Err(reason) => Err(Halt::Refused(reason)),
        }
    }

    fn record(&mut self, head: Head, collector: &mut Vec<u8>) -> Result<EndStep<AnyEvent>, Halt> {
        let body = mem::replace(collector, Vec::new(self.alloc));
        if !self.options.records_allowed() {
            return Err(Halt::Refused(Reason::RecordBeforeNegotiation));
        }
        let told: EndStep<AnyEvent> = EndStep {
            reply: ByteList::of(ArrayVec::new()),
            event: Some(AnyEvent::Record(Record {
                flags: head.flags,
                opcode: head.opcode,
                body: List::of(body),
            })),
        };
        Ok(told)
    }
}

//! What a host end does at an item.
ghost use Rattle.std.specs.Prelude.{◌≡◌, []};
ghost use Rattle.ws_end.specs.driver.Reacting.{Settles};
ghost use Rattle.ws_end.specs.host_end.HostReacting.{HostReacts, host_reacting};
ghost use Rattle.ws_end.specs.host_end.HostEndState.{host_takes_record, host_reads_by, host_ends_cancel, ready_event, asked_read};
ghost use Rattle.ws_end.specs.host_end.HostEndState as side_spec;

use super::Host;
use crate::end_step::HostRequest;
use crate::station::answer::{ATN, SRQ};
use crate::{Halt, HostEvent, HostStep, Reacts};
use arrayvec::ArrayVec;
use std::mem;
use ws_code::{ByteList, Reason};
use ws_keys::{HostFault, split_answer};
use ws_nego::Reply;
use ws_record::{Head, Opcode, Telnet};
use ws_stream::{AnswerPart, Answers};

// Nothing is written, and this is told.
fn event_step(event: Option<HostEvent>) -> HostStep
    ensures { result ≡ record { reply = []; event = event } }
{
    HostStep {
        reply: ByteList::of(ArrayVec::new()),
        event,
    }
}

// What an empty record tells by its flags, ATN and SRQ (RFC 1205, section 3).
fn signal(flags: u16) -> Option<HostEvent>
    ensures { result ≡ side_spec.signal flags }
{
    if flags / ATN % 2 == 1 {
        Some(HostEvent::Attention)
    } else if flags / SRQ % 2 == 1 {
        Some(HostEvent::SystemRequest)
    } else {
        None
    }
}

impl Reacts for Host {
    type Body = Answers;

    type Collector = Vec<AnswerPart>;

    type Request = HostRequest;

    type Event = HostEvent;

    type Reply = Reply;

    ghost does = { host_reacting };

    fn silence() -> Reply {
        ByteList::of(ArrayVec::new())
    }

    fn bytes<'a>(&'a self, reply: &'a Reply) -> &'a [u8] {
        reply.as_slice()
    }

    fn telnet(&mut self, token: &Telnet) -> Result<HostStep, Halt> {
        let was_allowed = self.options.records_allowed();
        match self.options.answer(token) {
            Ok(reply) => Ok(HostStep {
                reply,
                event: self.ready(was_allowed),
            }),
            Err(reason) => Err(Halt::Refused(reason)),
        }
    }

    fn record(&mut self, head: Head, collector: &mut Vec<AnswerPart>) -> Result<HostStep, Halt> {
        let units = mem::replace(collector, Vec::new(self.alloc));
        if !self.options.records_allowed() {
            return Err(Halt::Refused(Reason::RecordBeforeNegotiation));
        }
        self.take_record(head.flags, head.opcode, units.as_slice())
    }
}

impl Host {
    // That records have become allowed, and the terminal.
    fn ready(&self, was_allowed: bool) -> Option<HostEvent>
        ensures { result ≡ ready_event was_allowed self.now.options }
    {
        if was_allowed || !self.options.records_allowed() {
            return None;
        }
        match self.options.terminal() {
            Some(terminal) => Some(HostEvent::Ready(terminal)),
            None => None,
        }
    }

    // Does what a record asks for.
    fn take_record(
        &mut self,
        flags: u16,
        opcode: Opcode,
        parts: &[AnswerPart],
    ) -> Result<HostStep, Halt>
        ensures reacted { HostReacts self.old self.new (λ state.
            (host_takes_record state flags opcode parts.now)) result }
        ensures settled { Settles host_reacting self.old self.new result }
    {
        if opcode == Opcode::PutGet {
            return self.take_answer(parts);
        }
        if !parts.is_empty() {
            return Err(Halt::Refused(Reason::UnaskedAnswer));
        }
        match opcode {
            Opcode::CancelInvite => self.end_cancel(),
            Opcode::NoOperation => Ok(event_step(signal(flags))),
            _ => Err(Halt::Refused(Reason::UnaskedAnswer)),
        }
    }

    // Takes an answer to the asked read.
    fn take_answer(&mut self, parts: &[AnswerPart]) -> Result<HostStep, Halt>
        ensures reacted { HostReacts self.old self.new (λ state.
            (host_reads_by state (asked_read state) parts.now)) result }
        ensures settled { Settles host_reacting self.old self.new result }
    {
        let Some(kind) = self.kept.pending() else {
            return Err(Halt::Refused(Reason::UnaskedAnswer));
        };
        self.kept.known();
        match split_answer(self.alloc, &self.kept, kind, parts) {
            Ok(answer) => {
                self.kept.cancel_read();
                Ok(event_step(Some(HostEvent::Answer(answer))))
            }
            Err(HostFault::Reason(reason)) => Err(Halt::Refused(reason)),
            Err(HostFault::Memory) => Err(Halt::Memory),
        }
    }

    // Takes the end of a cancel.
    fn end_cancel(&mut self) -> Result<HostStep, Halt>
        ensures reacted { HostReacts self.old self.new (λ state.
            (host_ends_cancel state state.cancelling)) result }
        ensures settled { Settles host_reacting self.old self.new result }
    {
        if !self.cancelling {
            return Err(Halt::Refused(Reason::UnaskedAnswer));
        }
        self.kept.cancel_read(); // The read is over too.
        self.cancelling = false;
        Ok(event_step(Some(HostEvent::Cancelled)))
    }
}

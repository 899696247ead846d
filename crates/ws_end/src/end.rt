//! An end of a session, by what it does at bytes: the trait that sources, sinks and wires are written for.
ghost use Rattle.std.specs.Prelude.{◌≡◌, ◌<◌, ◌++◌, [], List, ℕ, length};
ghost use Rattle.ws_end.specs.ActLaws.{traces_none, goes_on};
ghost use Rattle.ws_end.specs.Acts.{Act};
ghost use Rattle.ws_end.specs.Behaviour.{Behaviour, TakesSome};
ghost use Rattle.ws_end.specs.EndTransitions.{IsSendRefusal, IsSendTaken, IsSendWanting};
ghost use Rattle.ws_end.specs.driver.DriverBehaviour.{driver_behaviour};
ghost use Rattle.ws_end.specs.driver.Driven.{IsReached, TakesNoMore, driving, transitions_of};
ghost use Rattle.ws_end.specs.Acts.{protocol_of};

use crate::end_step::{EndFed, HostRequest, Sent};
use crate::{Acting, Driver, Host, Reacts, SendFault};

/// An end of a session, to which bytes come and at which its caller does something.
pub trait End: Drop {
    /// What is done at it.
    type Request;
    /// What it tells.
    type Event: Drop;
    /// What it writes at a byte.
    type Reply: Drop;

    // What it does at bytes that come and at what is done at it, which bytes it refuses, at which it is silent, and when
    // it has ended.
    ghost behaviour: { Behaviour Self Self.Request Self.Event };

    // The bytes of what it has just written.
    ghost written: { Self → Self.Reply → List ℕ };

    /// Takes bytes of the piece, at least one, up to and with the first at which it writes or tells something or that
    /// it refuses, or some before it; and gives what it writes and tells. Where it refuses one, it has written and told
    /// nothing at those before. One that is shut uses none.
    fn feed(&mut self, piece: &[u8]) -> EndFed<Self::Event, Self::Reply>
        requires { 0 < length piece.now }
        ensures { TakesSome behaviour written self.old piece.now self.new result };

    /// The bytes of what it has just written.
    fn bytes<'a>(&'a self, reply: &'a Self::Reply) -> &'a [u8]
        ensures value { result.now ≡ written self.now reply.now };

    // No act leads nowhere, and acts go on where others have led.
    ghost stays: { (end : Self) → behaviour.traces end [] [] [] end };

    ghost follows: { (a b c : Self) (xs ys : List (Act Self.Request)) (v w : List ℕ)
        (s t : List Self.Event)
        → behaviour.traces a xs v s b → behaviour.traces b ys w t c
        → behaviour.traces a (xs ++ ys) (v ++ w) (s ++ t) c };
}

impl<R: Reacts> End for Driver<R> {
    type Request = R::Request;

    type Event = R::Event;

    type Reply = R::Reply;

    ghost behaviour = { driver_behaviour (driving R.Body.rules R.Collector.keeper R.does) };

    ghost written = { λ driver reply. R.does.written driver.reacts reply };

    fn feed(&mut self, piece: &[u8]) -> EndFed<R::Event, R::Reply> {
        Driver::feed(self, piece)
    }

    fn bytes<'a>(&'a self, reply: &'a R::Reply) -> &'a [u8] {
        self.reacts().bytes(reply)
    }

    ghost stays = { traces_none (protocol_of R.Body.rules R.does.out (transitions_of (driving R.Body.rules R.Collector.keeper R.does))) (IsReached (driving R.Body.rules R.Collector.keeper R.does)) TakesNoMore };

    ghost follows = { goes_on (protocol_of R.Body.rules R.does.out (transitions_of (driving R.Body.rules R.Collector.keeper R.does))) (IsReached (driving R.Body.rules R.Collector.keeper R.does)) TakesNoMore };
}

impl Acting for Driver<Host> {
    ghost refrains = { IsSendRefusal };

    ghost acts = { IsSendTaken };

    ghost wants = { IsSendWanting };

    fn act(&mut self, request: &HostRequest) -> Result<Sent, SendFault> {
        match request {
            HostRequest::Send(opcode, body) => self.request_send(*opcode, body.as_slice()),
            HostRequest::Cancel => self.request_cancel(),
        }
    }
}

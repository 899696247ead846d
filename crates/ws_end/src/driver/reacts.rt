//! What an end does at the items that come to it: what each kind of end gives its driver.
ghost use Rattle.std.specs.Prelude.{◌≡◌, ◌≤◌, [], List, OnOk, length};
ghost use Rattle.ws_code.specs.Code.{IsChain, spelling_of};
ghost use Rattle.ws_record.specs.DataStep.{record_of};
ghost use Rattle.ws_record.specs.declared.record.Item.TheVariants.{Record as RecordItem, Telnet as TelnetItem};
ghost use Rattle.ws_end.specs.driver.Reacting.{ReactingOf, Reacts as HasReacted, Settles};

use crate::Halt;
use crate::end_step::EndStep;
use ws_code::{Body, Code, Keep};
use ws_record::{Head, Telnet};

/// What reacts to the items of a stream: all of an end of a session but what reads its bytes.
///
/// An implementer gives its meaning, `does`: the states in which it may stand, what an item and its caller make of each,
/// and what of that is written and told. Each method then does as this says, and leaves it as it was where it refuses.
pub trait Reacts: Drop {
    /// The bodies of the records that come.
    type Body: Body;
    /// What is kept of the open one.
    type Collector: Keep<<Self::Body as Code>::Unit>;
    /// What is done at it.
    type Request;
    /// What it tells.
    type Event: Drop;
    /// What it writes. It may be short where its bytes are kept elsewhere.
    type Reply: Drop;

    // How it reacts.
    ghost does: { ReactingOf Self Self.Body.Unit Self.Request Self.Event Self.Reply };

    /// A reply of no bytes.
    fn silence() -> Self::Reply
        ensures { (reacts : Self) → does.written reacts result ≡ [] };

    /// The bytes of what it has just written.
    fn bytes<'a>(&'a self, reply: &'a Self::Reply) -> &'a [u8]
        ensures { result.now ≡ does.written self.now reply.now };

    /// Answers a Telnet command.
    ///
    /// # Errors
    ///
    /// Why it refuses the command; it is then as it was.
    fn telnet(&mut self, token: &Telnet) -> Result<EndStep<Self::Event, Self::Reply>, Halt>
        ensures reacted { HasReacted does self.old (TelnetItem token.now) self.new result }
        ensures settled { Settles does self.old self.new result };

    /// Takes the open record, which has this head, and keeps nothing of the next one.
    ///
    /// # Errors
    ///
    /// Why it refuses the record, or that a growth was refused; it is then as it was.
    fn record(
        &mut self,
        head: Head,
        collector: &mut Self::Collector,
    ) -> Result<EndStep<Self::Event, Self::Reply>, Halt>
        ensures reacted { (units : List Self.Body.Unit)
            → IsChain Self.Body.rules Self.Body.rules.first units
            → length (spelling_of Self.Body.rules units) ≤ 65525
            → Self.Collector.keeper.holds collector.old units (spelling_of Self.Body.rules units)
            → HasReacted does self.old (RecordItem (record_of head units)) self.new result }
        ensures emptied { OnOk result (Self.Collector.keeper.holds collector.new [] []) }
        ensures settled { Settles does self.old self.new result };
}

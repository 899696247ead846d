//! A host for tests of emulators.
ghost use Rattle.std.specs.Prelude.{◌≡◌, ◌+◌, ◌^◌, ◌∷◌, [], List, None, Err, length, IsSome, IfOk, IfErr};
ghost use Rattle.ws_nego.specs.Host.{opening, host_allows_records};
ghost use Rattle.ws_record.specs.Encode.{plain_spelling, item_spelling};
ghost use Rattle.ws_record.specs.RawBody.{raw_rules};
ghost use Rattle.ws_record.specs.declared.record.Item.{Item as AnItem};
ghost use Rattle.ws_end.specs.Ends.{refused_byte};
ghost use Rattle.ws_end.specs.driver.Driven.{DriverPushes, TakesNoMore};
ghost use Rattle.ws_any_host.specs.AnyReached.{AnyReached, AtAny, IsAnySendFault};
ghost use Rattle.ws_any_host.specs.AnyOptions.{new_negotiated, once_opened};
ghost use Rattle.ws_any_host.specs.AnyEndState.{any_driving, send_fault};

use crate::any::Any;
use crate::{AnyEvent, AnyOptions, ToldName};
use std::alloc::Global;
use std::marker::Model;
use ws_code::{Reason, VecSink};
use ws_nego::Reply;
use ws_record::{Record, write_record};
use ws_session::{Driver, EndStep, Refusal, SendFault};

/// A host for tests of emulators: it negotiates as a host end does, takes any terminal name and any record, and judges
/// neither. It refuses bytes by the reasons of Telnet, of negotiation and of the record's header alone (RFC 854, RFC
/// 1205, RFC 4777).
#[derive(Drop)]
pub struct AnyHost {
    pub(crate) driver: Driver<Any>,
}

impl Model for AnyHost {
    ghost use Rattle.ws_any_host.specs.AnyReached.{AnyParts};

    ghost Value = { AnyParts };

    ghost view = { λ h. h.driver };
}

impl AnyHost {
    /// A host that has taken no byte and sent none.
    pub fn new(alloc: Global) -> Self
        ensures { AnyReached result [] [] new_negotiated }
    {
        let any = Any {
            alloc,
            options: AnyOptions::new(),
        };
        AnyHost {
            driver: Driver::of(any, Vec::new(alloc)),
        }
    }

    /// Gives the first token of a session, which asks the station for its terminal type. It is called once, first.
    pub fn open(&mut self) -> Reply
        ensures reply { result ≡ plain_spelling raw_rules (AnItem.Telnet opening ∷ []) }
        ensures opened { AtAny self.old (λ bytes items state.
            AnyReached self.new bytes items (once_opened state)) }
    {
        let alloc = self.driver.reacts().alloc;
        let options = AnyOptions::new();
        let mut any = self.driver.replace(Any { alloc, options });
        let reply = any.options.open();
        self.driver.replace(any);
        reply
    }

    /// Whether the negotiation has come so far that records may be sent both ways (RFC 1205, section 2).
    pub fn is_ready(&self) -> bool
        ensures { result ≡ host_allows_records self.now.reacts.host }
    {
        self.driver.reacts().options.records_allowed()
    }

    /// The terminal's name as the station has told it; empty before.
    pub fn terminal(&self) -> ToldName
        ensures { result ≡ self.now.reacts.name }
    {
        self.driver.reacts().options.name()
    }

    /// How many bytes it has taken, one that it refused among them.
    pub fn taken(&self) -> u64
        ensures count { result ≡ self.now.live.taken }
        ensures led { AtAny self.now (λ bytes items state. result ≡ length bytes) }
    {
        self.driver.taken()
    }

    /// The byte that it has refused, counted from 0, and the reason. None while it takes bytes, and where it takes no
    /// more for their number alone or for want of memory.
    pub fn refused(&self) -> Option<(u64, Reason)>
        ensures { result ≡ refused_byte self.now.ended }
    {
        self.driver.refused()
    }

    /// Takes a byte, and gives what the host writes and tells: at a command's last byte, at a record's IAC EOR, and
    /// nothing elsewhere.
    ///
    /// # Errors
    ///
    /// `At` the first byte after which the bytes begin no stream (RFC 854, RFC 885, RFC 1205), or the last byte of WONT
    /// TERMINAL-TYPE before a name was told, or of a record before records are allowed; `Memory` where a growth was
    /// refused, at a byte of a body. `push` and `send` answer `Failed` from then on, as after
    /// 18,446,744,073,709,551,615 bytes.
    pub fn push(&mut self, byte: u8) -> Result<EndStep<AnyEvent>, Refusal>
        ensures { DriverPushes any_driving self.old byte self.new result }
    {
        self.driver.take_byte(byte)
    }

    /// Gives the bytes of a record that is sent, of any opcode, flags and body (RFC 1205, section 3).
    ///
    /// # Errors
    ///
    /// The first of these: `Failed` where the host has refused a byte, or has taken 18,446,744,073,709,551,615;
    /// `NotAllowed` where records aren't allowed yet; `TooBig` where the body has more than 65,525 bytes; `Memory`
    /// where a growth was refused.
    #[tactic(auto, using(crate::proofs::AnySteps::fits, crate::proofs::AnySteps::too_big))]
    pub fn send(&self, record_: &Record<u8>) -> Result<Vec<u8>, SendFault>
        ensures sent { IfOk result (λ sent.
            (send_fault self.now.reacts record_.now ≡ None)
            × (sent.items ≡ item_spelling raw_rules (AnItem.Record record_.now))) }
        ensures refused { IfErr result (λ why. (TakesNoMore self.now → ⊥)
            → IsAnySendFault self.now.reacts record_.now why) }
        ensures full { self.now.live.taken + 1 ≡ 2 ^ 64
            → result ≡ Err SendFault.Failed }
        ensures failed { IsSome self.now.ended → result ≡ Err SendFault.Failed }
    {
        if self.driver.is_shut() {
            return Err(SendFault::Failed);
        }
        if !self.is_ready() {
            return Err(SendFault::NotAllowed);
        }
        let body = record_.body.as_slice();
        if body.len() > 65_525 {
            return Err(SendFault::TooBig);
        }
        let mut sink = VecSink::new(self.driver.reacts().alloc);
        if write_record(&mut sink, record_.flags, record_.opcode, body).is_err() {
            return Err(SendFault::Memory);
        }
        Ok(sink.into_inner())
    }
}

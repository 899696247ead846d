//! What a host end sends.
ghost use Rattle.std.specs.Prelude.{◌≡◌, ◌≢◌, ◌<◌, ◌+◌, ◌^◌, Err, length, IsSome, OnErr, MatchResult};
ghost use Rattle.ws_end.specs.declared.end_step.HostRequest.TheVariants.{Send as Sending, Cancel as Cancelling};
ghost use Rattle.ws_end.specs.host_end.HostReached.{AtHost, IsSent, IsSendFault, CarriesOut};
ghost use Rattle.ws_end.specs.host_end.HostReacting.{HostStands};
ghost use Rattle.ws_end.specs.host_end.HostEndState.{HostEndState, RefusesSend, host_send, host_cancel, is_outstanding};

use super::Host;
use crate::station::apply::CANCEL;
use crate::station::body::body_spelling;
use crate::{Driver, SendFault, Sent};
use arrayvec::ArrayVec;
use ws_code::VecSink;
use ws_record::{Opcode, write_record};
use ws_screen::{Screen, apply_elements};
use ws_stream::{Element, is_body};

impl Driver<Host> {
    /// Sends a record with flags 0, and gives its bytes. The body's write ends with it.
    ///
    /// # Errors
    ///
    /// The first of `SendFault`'s that applies; nothing is then changed.
    pub fn send(&mut self, opcode: Opcode, body: &[Element]) -> Result<Vec<u8>, SendFault>
        requires other { opcode ≢ Opcode.CancelInvite }
        // What goes out; or why not, which changes nothing.
        ensures sent { AtHost self.old (λ bytes items state. length bytes + 1 < 2 ^ 64
            → MatchResult result (λ sent.
            IsSent self.new bytes items (host_send state opcode body.now) sent.items) (IsSendFault
            (host_send state opcode body.now))) }
        ensures same { OnErr result (self.new ≡ self.old) }
        // Nothing at the greatest count or after a refusal.
        ensures full { self.old.live.taken + 1 ≡ 2 ^ 64
            → result ≡ Err SendFault.Failed }
        ensures failed { IsSome self.old.ended → result ≡ Err SendFault.Failed }
    {
        if self.is_shut() {
            return Err(SendFault::Failed);
        }
        if !self.reacts.options.records_allowed() {
            return Err(SendFault::NotAllowed);
        }
        if self.is_disturbed(body) {
            return Err(SendFault::ReadOutstanding);
        }
        if !is_body(body) {
            return Err(SendFault::BadSequence);
        }
        let mut copy = Screen::new();
        copy.assign(&self.reacts.kept);
        if let Err(reason) = apply_elements(&mut copy, body) {
            return Err(SendFault::Screen(reason));
        }
        copy.end_write();
        let bytes = match body_spelling(self.reacts.alloc, body) {
            Ok(Some(bytes)) => bytes,
            Ok(None) => return Err(SendFault::TooBig),
            Err(_) => return Err(SendFault::Memory),
        };
        let mut sink = VecSink::new(self.reacts.alloc);
        if write_record(&mut sink, 0, opcode, bytes.as_slice()).is_err() {
            return Err(SendFault::Memory);
        }
        self.reacts.kept.assign(&copy);
        Ok(sink.into_inner())
    }

    /// Cancels the asked read, and gives the bytes of the record. The read stays asked until an answer or the
    /// cancel's end comes.
    ///
    /// # Errors
    ///
    /// `Failed`, `NotAllowed`, or `NoReadToCancel`; nothing is then changed.
    pub fn cancel(&mut self) -> Result<ArrayVec<u8, 12>, SendFault>
        ensures sent { AtHost self.old (λ bytes items state. length bytes + 1 < 2 ^ 64
            → MatchResult result (λ sent.
            IsSent self.new bytes items (host_cancel state) sent.items) (λ fault.
            host_cancel state ≡ RefusesSend fault)) }
        ensures same { OnErr result (self.new ≡ self.old) }
        ensures wanting { result ≢ Err SendFault.Memory }
        ensures full { self.old.live.taken + 1 ≡ 2 ^ 64
            → result ≡ Err SendFault.Failed }
        ensures failed { IsSome self.old.ended → result ≡ Err SendFault.Failed }
    {
        if self.is_shut() {
            return Err(SendFault::Failed);
        }
        if !self.reacts.options.records_allowed() {
            return Err(SendFault::NotAllowed);
        }
        if self.reacts.cancelling || self.reacts.kept.pending().is_none() {
            return Err(SendFault::NoReadToCancel);
        }
        self.reacts.cancelling = true;
        Ok(ArrayVec::from(CANCEL))
    }

    /// Carries out a request to send: one of Cancel Invite is a cancel.
    ///
    /// # Errors
    ///
    /// As `send` and `cancel`.
    pub fn request_send(&mut self, opcode: Opcode, body: &[Element]) -> Result<Sent, SendFault>
        ensures { CarriesOut (Sending opcode body.now) self.old self.new result }
    {
        match opcode {
            Opcode::CancelInvite => self.request_cancel(),
            _ => match self.send(opcode, body) {
                Ok(bytes) => Ok(Sent::Record(bytes)),
                Err(fault) => Err(fault),
            },
        }
    }

    /// Carries out a request to cancel.
    ///
    /// # Errors
    ///
    /// As `cancel`.
    pub fn request_cancel(&mut self) -> Result<Sent, SendFault>
        ensures { CarriesOut Cancelling self.old self.new result }
    {
        match self.cancel() {
            Ok(bytes) => Ok(Sent::Cancel(bytes)),
            Err(fault) => Err(fault),
        }
    }

    // Whether the body would disturb a read or a cancel.
    fn is_disturbed(&self, body: &[Element]) -> bool
        ensures { (state : HostEndState) → HostStands self.now.reacts state
            → result ≡ is_outstanding state body.now }
    {
        !body.is_empty() && (self.reacts.kept.pending().is_some() || self.reacts.cancelling)
    }
}

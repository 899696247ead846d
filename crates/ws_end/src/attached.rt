//! An end of a session on a source and a sink.
ghost use Rattle.std.specs.Prelude.{◌≡◌, ◌≢◌, ◌<◌, [], Err, true, false, length, OnOk, IfOk, IfErr};
ghost use Rattle.ws_end.specs.attached.Attachments.{HasTakenSome, HasTakenWaiting, IsWaitingFault, HasHeard, IsHearFault, breaks};
ghost use Rattle.ws_end.specs.attached.Attachments.{IfEvents, TakesFirst, HearsFirst, HearsNext};
ghost use Rattle.ws_end.specs.attached.Requests.{HasActed, judged};
ghost use Rattle.ws_code.specs.Device.{on_devices};

pub(crate) mod acted;
pub(crate) mod acting;
mod beside;
pub(crate) mod keyed;
pub(crate) mod player;
pub(crate) mod run;
pub(crate) mod waiting;
pub(crate) mod writing;

use crate::attached::keyed::Keyed;
use crate::attached::waiting::Waiting;
use crate::attached::writing::{PieceTaken, hear_piece};
use crate::end::End;
use crate::{Acted, Acting, KeyFault, SendFault};
use std::marker::Model;
use ws_code::{DeviceFailed, Fault, Sink, Source, write_whole};

/// An end of a session that reads from a source and writes into a sink, as the two directions of a connection.
#[derive(Drop)]
pub struct Attached<E, S, K> {
    end: E,
    source: S,
    sink: K,
    waiting: Waiting,
    broken: bool,
}

impl<E, S, K> Model for Attached<E, S, K> {
    ghost use Rattle.ws_end.specs.attached.Attachments.{AttachedParts};

    ghost Value = { AttachedParts E S K };

    ghost view = { λ a. record { end = a.end; source = a.source; sink = a.sink; waiting = a.waiting; broken = a.broken } };
}

impl<E: End, S: Source, K: Sink> Attached<E, S, K> {
    /// The end, attached to its devices. Nothing is read yet.
    pub fn new(end: E, source: S, sink: K) -> Self
        ensures { result ≡ record {
          end = end;
          source = source;
          sink = sink;
          waiting = [];
          broken = false;
        } }
    {
        Attached {
            end,
            source,
            sink,
            waiting: Waiting::new(),
            broken: false,
        }
    }

    /// The end.
    pub fn end(&self) -> &E
        ensures { result.now ≡ self.now.end }
    {
        &self.end
    }

    /// The source, of which a caller may ask why a read has failed.
    pub fn source(&self) -> &S
        ensures { result.now ≡ self.now.source }
    {
        &self.source
    }

    /// The sink.
    pub fn sink(&self) -> &K
        ensures { result.now ≡ self.now.sink }
    {
        &self.sink
    }

    /// Takes bytes, and writes what the end answers, up to the first byte at which the end tells something: the bytes
    /// that wait, and then those that the source gives. `None` where the source gave its end. What was read behind
    /// that byte waits for the next call.
    ///
    /// # Errors
    ///
    /// `Read` where a read failed, or 4,294,967,296 reads told nothing: nothing is lost, and a further call reads on.
    /// `Refused`, `Failed` or `Memory` as the end refuses a byte. `Write` where a write failed, or took no byte: a
    /// prefix of what the end has written went out. After any of these but `Read` every call answers `Failed`.
    pub fn hear(&mut self) -> Result<Option<E::Event>, Fault>
        ensures { HearsNext E.behaviour (on_devices K.writer S.reader) self.old self.new result }
    {
        if self.broken {
            return Err(Fault::Failed);
        }
        self.listen()
    }

    // As `hear`, while nothing is broken.
    fn listen(&mut self) -> Result<Option<E::Event>, Fault>
        requires works { self.old.broken ≡ false }
        // What came, and that nothing was told before its last byte; or what stopped it.
        ensures heard { IfOk result (HasHeard E.behaviour
            (on_devices K.writer S.reader) self.old self.new) }
        ensures first { IfEvents result
            (HearsFirst E.behaviour S.reader self.old self.new) }
        ensures fault { IfErr result (IsHearFault E.behaviour
            (on_devices K.writer S.reader) self.old self.new) }
        // Whether it is broken from then on.
        ensures works { OnOk result (self.new.broken ≡ false) }
        ensures breaks { IfErr result (λ fault. self.new.broken ≡ breaks fault) }
    {
        match self.take_waiting() {
            Ok(None) => {}
            Ok(Some(event)) => return Ok(Some(event)),
            Err(fault) => return Err(fault),
        }
        for _ in 0..4_294_967_296u64 {
            match self.waiting.fill(&mut self.source) {
                Ok(true) => {}
                Ok(false) => return Ok(None),
                Err(DeviceFailed) => return Err(Fault::Read),
            }
            match self.take_waiting() {
                Ok(None) => {}
                Ok(Some(event)) => return Ok(Some(event)),
                Err(fault) => return Err(fault),
            }
        }
        Err(Fault::Read)
    }

    // Takes the bytes that wait, up to the first at which the end tells something.
    fn take_waiting(&mut self) -> Result<Option<E::Event>, Fault>
        // What the waiting bytes brought, nothing of it before the last; or what stopped it.
        ensures taken { IfOk result (HasTakenWaiting E.behaviour
            (on_devices K.writer S.reader) self.old self.new) }
        ensures first { IfEvents result (TakesFirst E.behaviour self.old self.new) }
        ensures fault { IfErr result (IsWaitingFault E.behaviour
            (on_devices K.writer S.reader) self.old self.new) }
        // Whether it is broken from then on.
        ensures works { OnOk result (self.new.broken ≡ self.old.broken) }
        ensures breaks { IfErr result (λ fault.
            (self.new.broken ≡ true) × (breaks fault ≡ true)) }
    {
        while !self.waiting.is_empty() {
            match self.take() {
                Ok(None) => {}
                Ok(Some(event)) => return Ok(Some(event)),
                Err(fault) => return Err(fault),
            }
        }
        Ok(None)
    }

    // Takes some of the bytes that wait, and writes what the end answers.
    fn take(&mut self) -> Result<Option<E::Event>, Fault>
        requires { self.old.waiting ≢ [] }
        // What the waiting bytes brought, nothing of it before the last; or what stopped it.
        ensures taken { IfOk result (HasTakenSome E.behaviour
            (on_devices K.writer S.reader) self.old self.new) }
        ensures first { IfEvents result (TakesFirst E.behaviour self.old self.new) }
        ensures fault { IfErr result (IsWaitingFault E.behaviour
            (on_devices K.writer S.reader) self.old self.new) }
        // Fewer wait then, and none was read.
        ensures shorter { length self.new.waiting < length self.old.waiting }
        ensures source { self.new.source ≡ self.old.source }
        // Whether it is broken from then on.
        ensures works { OnOk result (self.new.broken ≡ self.old.broken) }
        ensures breaks { IfErr result (λ fault.
            (self.new.broken ≡ true) × (breaks fault ≡ true)) }
    {
        let PieceTaken { used, event } = hear_piece(
            &mut self.end,
            &mut self.sink,
            self.waiting.as_slice(),
        );
        self.waiting.skip(used);
        match event {
            Ok(event) => Ok(event),
            Err(fault) => {
                self.broken = true;
                Err(fault)
            }
        }
    }
}

impl<E: Acting, S: Source, K: Sink> Attached<E, S, K> {
    /// Does something at the end, and writes what that gives: at a host end it sends a record with flags 0, or cancels
    /// the read.
    ///
    /// # Errors
    ///
    /// `Write` where a write failed, or took no byte: the request has had its effect, and a prefix of what it gives
    /// went out. `Failed` after a call that answered `Write`, or in which the end refused a byte, and `Memory` where a
    /// growth was refused: nothing is then changed. An end that is shut otherwise refuses the request by
    /// `SendFault::Failed`.
    pub fn act(&mut self, request: &E::Request) -> Result<Acted<SendFault>, Fault>
        ensures { HasActed (on_devices K.writer S.reader)
            (judged E.behaviour E.refrains E.acts E.wants request.now) self.old self.new result }
    {
        if self.broken {
            return Err(Fault::Failed);
        }
        match self.end.act(request) {
            Ok(sent) => {
                if let Err(fault) = write_whole(&mut self.sink, sent.as_slice()) {
                    self.broken = true;
                    return Err(fault);
                }
                Ok(Acted::Done)
            }
            Err(SendFault::Memory) => Err(Fault::Memory),
            Err(fault) => Ok(Acted::Refused(fault)),
        }
    }
}

impl<E: Keyed, S: Source, K: Sink> Attached<E, S, K> {
    /// Presses a key, and writes what it sends.
    ///
    /// # Errors
    ///
    /// `Write` where a write failed, or took no byte: the key has had its effect, and a prefix of what it sends went
    /// out. `Failed` after a call that answered `Write`, or in which the end refused a byte; nothing is then
    /// changed. An end that is shut otherwise refuses the key by `KeyFault::Failed`.
    pub fn press(&mut self, key: E::Key) -> Result<Acted<KeyFault>, Fault>
        ensures { HasActed (on_devices K.writer S.reader)
            (E.keyed key) self.old self.new result }
    {
        if self.broken {
            return Err(Fault::Failed);
        }
        match self.end.press(&mut self.sink, key) {
            Ok(acted) => Ok(acted),
            Err(fault) => {
                self.broken = true;
                Err(fault)
            }
        }
    }
}

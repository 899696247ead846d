//! Reads a stream of which records may be refused: after one the next is read.
ghost use Rattle.std.specs.Prelude.{◌≡◌, ◌↔◌, [], true, false, IfOk, IfErr, IsTrue};
ghost use Rattle.ws_trace.specs.Reading as Spec;
ghost use Rattle.ws_trace.specs.Reading.{IsCountFault, MayEndAt, StreamStanding};
ghost use Rattle.ws_trace.specs.Reading.StreamStanding.{Reads};
ghost use Rattle.ws_trace.specs.Readers.{IsFull, IsNextOf, StandsThere, is_eor as is_end};

use crate::Told;
use std::alloc::Global;
use std::marker::Model;
use ws_code::{Body, Code, Fault, Push, Reason};
use ws_record::{Item, Receiver};
use ws_telnet::{Token, Tokens};

/// Reads an end's stream, and goes on after a refused record with the next.
#[derive(Drop)]
pub struct Reader<B: Body> {
    alloc: Global,
    receiver: Receiver<B>,
    tokens: Tokens,
    is_passing: bool,
}

impl<B: Body> Model for Reader<B> {
    ghost use Rattle.ws_code.specs.Code.{IsUnfinished};
    ghost use Rattle.ws_telnet.specs.Machine.{unfinished_token};
    ghost use Rattle.ws_telnet.specs.Token.{token_rules};
    ghost use Rattle.ws_trace.specs.Readers.{ReaderParts};

    ghost Value = { ReaderParts B.Place B.Unit };

    ghost view = { λ r. record {
      receiver = r.receiver;
      begun = unfinished_token r.tokens;
      is_passing = r.is_passing;
    } };

    ghost invariant = { λ r. IsUnfinished token_rules tt (unfinished_token r.tokens) };
}

impl<B: Body> Reader<B> {
    /// One that has taken no byte.
    pub fn new(alloc: Global) -> Self
        ensures { StandsThere B.rules result (Reads [] []) }
    {
        Reader {
            alloc,
            receiver: Receiver::new(alloc),
            tokens: Tokens::start(()),
            is_passing: false,
        }
    }

    /// Takes a byte, and tells what it ends.
    ///
    /// # Errors
    ///
    /// `Memory` where a growth was refused, `Failed` where no more bytes can be counted.
    pub fn take(&mut self, byte: u8) -> Result<Option<Told<B::Unit>>, Fault>
        ensures next { IfOk result (IsNextOf B.rules self.old self.new byte) }
        ensures fault { IfErr result (IsCountFault (IsFull B.rules self.old)) }
    {
        if self.is_passing {
            Ok(self.pass(byte))
        } else {
            self.read(byte)
        }
    }

    // Takes a byte of records that are read.
    fn read(&mut self, byte: u8) -> Result<Option<Told<B::Unit>>, Fault>
        requires reads { self.old.is_passing ≡ false }
        ensures next { IfOk result (IsNextOf B.rules self.old self.new byte) }
        ensures fault { IfErr result (IsCountFault (IsFull B.rules self.old)) }
    {
        if self.receiver.taken() >= u64::MAX - 1 {
            return Err(Fault::Failed);
        }
        match self.receiver.take(byte) {
            Ok(None) => Ok(None),
            Ok(Some(item)) => Ok(Some(Told::Whole(item))),
            Err(fault) => match fault {
                Fault::Refused { reason, .. } => {
                    self.receiver = Receiver::new(self.alloc);
                    self.tokens.restart(());
                    self.is_passing = !ends_record(reason);
                    Ok(Some(Told::Refused(reason)))
                }
                Fault::Memory => Err(Fault::Memory),
                _ => Err(Fault::Failed),
            },
        }
    }

    // Takes a byte that is passed over.
    fn pass(&mut self, byte: u8) -> Option<Told<B::Unit>>
        requires passes { self.old.is_passing ≡ true }
        ensures { IsNextOf B.rules self.old self.new byte result }
    {
        match self.tokens.push(byte) {
            Push::More => None,
            Push::Bad(reason) => {
                self.tokens.restart(());
                Some(Told::Refused(reason))
            }
            Push::Unit(token) => {
                self.tokens.restart(());
                self.is_passing = !is_eor(&token);
                told_of(token)
            }
        }
    }

    /// Whether the stream may end here.
    pub fn may_end(&mut self) -> bool
        ensures { (at : StreamStanding B.Unit) → StandsThere B.rules self.old at
            → IsTrue result ↔ MayEndAt B.rules at }
    {
        !self.is_passing && self.receiver.finish().is_ok()
    }
}

// Whether the refused byte is that of an EOR.
fn ends_record(reason: Reason) -> bool
    ensures { result ≡ Spec.ends_record reason }
{
    matches!(reason, Reason::TooShort | Reason::EndedInside)
}

// Whether a token is an EOR.
fn is_eor(token: &Token) -> bool
    ensures { result ≡ is_end token.now }
{
    matches!(token, Token::Eor)
}

// What is told of a token that is passed over.
fn told_of<U>(token: Token) -> Option<Told<U>>
    ensures { result ≡ Spec.told_of_passed token }
{
    match token {
        Token::Telnet(telnet) => Some(Told::Whole(Item::Telnet(telnet))),
        Token::Data(_) | Token::Eor => None,
    }
}

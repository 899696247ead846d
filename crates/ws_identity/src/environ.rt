//! The option NEW-ENVIRON, by which a host asks a display station who it is.
ghost use Rattle.std.specs.Prelude.{◌≡◌, [], None, IfSome, IfNone, List};
ghost use Rattle.ws_nego.specs.Options.{telnet_bytes, AnswersWith, option_tokens};
ghost use Rattle.ws_telnet.specs.declared.token.Telnet.{Telnet};
ghost use Rattle.ws_identity.specs.declared.identity.Identity.{Identity};
ghost use Rattle.ws_identity.specs.Session.{IsToldOnce};
ghost use Rattle.ws_identity.specs.Environ as spec;
ghost use Rattle.ws_identity.specs.Environ.{EnvironState, new_environ, environ_answer, environ_verb_answer, environ_sub_answer, after_asked, asks};

use crate::Identity;
use crate::codes::{NEW_ENVIRON, SEND};
use crate::telling::told_reply;
use arrayvec::ArrayVec;
use std::marker::Model;
use ws_code::ByteList;
use ws_telnet::{IAC, Sub, Telnet, Verb};

/// What a station with an identity writes in answer to one token: at most 63 bytes.
pub type Reply = ByteList<63>;

/// The option NEW-ENVIRON of a display station with an identity (RFC 1572, RFC 4777). The station performs it when it is
/// asked to, and tells who it is each time it is asked, the device's name the first time alone.
#[derive(Drop)]
pub struct Environ {
    identity: Identity,
    on: bool,
    name_told: bool,
    names_refused: u64,
}

impl Model for Environ {
    ghost Value = { EnvironState };

    ghost view = { λ environ. record {
      identity = environ.identity;
      on = environ.on;
      name_told = environ.name_told;
      names_refused = environ.names_refused;
    } };
}

impl Environ {
    /// The option of a new session: it is off.
    pub fn new(identity: Identity) -> Self
        ensures { result ≡ new_environ identity }
    {
        Environ {
            identity,
            on: false,
            name_told: false,
            names_refused: 0,
        }
    }

    /// Takes a token from the host end, and gives what the station writes. SEND is answered while the option is on,
    /// whatever it asks for; every other subnegotiation has no effect. `None`, and nothing has changed, where the token
    /// isn't of this option.
    pub fn answer(&mut self, token: &Telnet) -> Option<Reply>
        ensures answer { IfSome result (λ reply.
            AnswersWith (environ_answer self.old token.now) self.new reply) }
        ensures other { IfNone result (environ_answer self.old token.now ≡ None) }
        ensures unchanged { IfNone result (self.new ≡ self.old) }
    {
        match token {
            Telnet::Command(_) => None,
            Telnet::Option(verb, option) => {
                if *option == NEW_ENVIRON {
                    Some(self.answer_verb(*verb))
                } else {
                    None
                }
            }
            Telnet::Sub(sub) => {
                if sub.option == NEW_ENVIRON {
                    Some(self.answer_sub(sub))
                } else {
                    None
                }
            }
        }
    }

    /// Who the station is.
    pub fn identity(&self) -> &Identity
        ensures { result.now ≡ self.now.identity }
    {
        &self.identity
    }

    /// How often the host has asked again after it was told the device's name, which it has then refused, as one that
    /// is in use (RFC 4777). It counts up to the greatest value of 64 bits.
    pub fn names_refused(&self) -> u64
        ensures { result ≡ self.now.names_refused }
    {
        self.names_refused
    }

    fn answer_verb(&mut self, verb: Verb) -> Reply
        ensures table { self.new ≡ (environ_verb_answer self.old verb).after }
        ensures reply { result ≡ telnet_bytes (environ_verb_answer self.old verb).reply }
    {
        let (on, answer) = environ_row(verb, self.on);
        self.on = on;
        verb_reply(answer)
    }

    fn answer_sub(&mut self, sub: &Sub) -> Reply
        ensures table { self.new ≡ (environ_sub_answer self.old sub.now.data_).after }
        ensures reply { result ≡ telnet_bytes (environ_sub_answer self.old sub.now.data_).reply }
    {
        if !self.on || !asks(sub.data_.as_slice()) {
            return no_reply();
        }
        let reply = told_reply(&self.identity, !self.name_told);
        self.name_asked();
        reply
    }

    // Notes that the host has asked.
    fn name_asked(&mut self)
        ensures { self.new ≡ after_asked self.old }
    {
        if self.identity.device.is_none() {
            return;
        }
        if self.name_told {
            self.names_refused = self.names_refused.saturating_add(1);
        } else {
            self.name_told = true;
        }
    }
}

// Whether the option is on after the verb, and the verb of the answer.
fn environ_row(verb: Verb, on: bool) -> (bool, Option<Verb>)
    ensures { result ≡ spec.environ_row verb on }
{
    match (verb, on) {
        (Verb::Do, false) => (true, Some(Verb::Will)),
        (Verb::Do, true) => (true, None),
        (Verb::Dont, true) => (false, Some(Verb::Wont)),
        (Verb::Dont, false) => (false, None),
        (Verb::Will, _) => (on, Some(Verb::Dont)),
        (Verb::Wont, _) => (on, None),
    }
}

// Whether this is SEND (RFC 1572, section 2).
fn asks(content: &[u8]) -> bool
    ensures { result ≡ asks content.now }
{
    match content {
        [code, ..] => *code == SEND,
        [] => false,
    }
}

fn no_reply() -> Reply
    ensures { result ≡ [] }
{
    ByteList::of(ArrayVec::new())
}

// The reply of one verb, or the empty one.
fn verb_reply(verb: Option<Verb>) -> Reply
    ensures { result ≡ telnet_bytes (option_tokens verb NEW_ENVIRON) }
{
    let mut bytes = ArrayVec::new();
    if let Some(verb) = verb {
        bytes.push(IAC);
        bytes.push(verb.byte());
        bytes.push(NEW_ENVIRON);
    }
    ByteList::of(bytes)
}

/// Of the questions of a session that are answered the first is told the device's name, where there is one, and each
/// later one is counted as a refusal of it.
pub fn names_are_told_once()
    ensures { (identity : Identity) (tokens : List Telnet) → IsToldOnce identity tokens }
{}

//! The options of a host that takes any terminal name.
ghost use Rattle.std.specs.Prelude.{◌≡◌, ◌≤◌, ◌<◌, ◌∷◌, [], List, ℕ, None, Some, length, IfOk, IfErr, IfSome, OnErr, option_map};
ghost use Rattle.ws_code.specs.declared.reason.Reason.TheVariants.{UnsupportedTerminal};
ghost use Rattle.ws_telnet.specs.declared.token.Sub.{Sub as ASub};
ghost use Rattle.ws_nego.specs.Host.{opening, host_allows_records};
ghost use Rattle.ws_nego.specs.Host as host;
ghost use Rattle.ws_nego.specs.Options.{telnet_bytes, AnswersWith};
ghost use Rattle.ws_any_host.specs.AnyOptions.{any_answer, new_negotiated, once_opened};
ghost use Rattle.ws_any_host.specs.AnyOptions as spec;

use arrayvec::ArrayVec;
use std::marker::Model;
use ws_code::{ByteList, Reason};
use ws_nego::{HostOptions, Reply, TerminalType};
use ws_telnet::{Sub, TERMINAL_TYPE, Telnet};

/// A terminal's name as a station has told it: at most 63 bytes, any of them.
pub type ToldName = ByteList<64>;

// The first byte of a subnegotiation of TERMINAL-TYPE that brings a name (RFC 1091, section 2).
const IS: u8 = 0;

/// The options of a host that takes any terminal name. It answers as a host end does, and that to any name as to one
/// that it knows (RFC 854, 856, 885, 1091; RFC 4777, section 2).
#[derive(Drop)]
pub struct AnyOptions {
    options: HostOptions,
    told: ToldName,
}

impl Model for AnyOptions {
    ghost use Rattle.ws_any_host.specs.AnyOptions.{Negotiated};

    ghost Value = { Negotiated };

    ghost view = { λ o. record { host = o.options; name = o.told } };
}

impl AnyOptions {
    /// The options of a new session: all are off, and no name is told.
    pub fn new() -> Self
        ensures { result ≡ new_negotiated }
    {
        AnyOptions {
            options: HostOptions::new(),
            told: ByteList::of(ArrayVec::new()),
        }
    }

    /// Gives the first token of a session, which asks the station to perform TERMINAL-TYPE.
    pub fn open(&mut self) -> Reply
        ensures opened { self.new ≡ once_opened self.old }
        ensures reply { result ≡ telnet_bytes (opening ∷ []) }
    {
        self.options.open()
    }

    /// Takes a token from the station, and gives what is written, as `HostOptions::answer`. The first name after SEND
    /// is taken whatever it is, and kept as it came.
    ///
    /// # Errors
    ///
    /// `UnsupportedTerminal` at WONT TERMINAL-TYPE before a name was told. The options are then unchanged.
    pub fn answer(&mut self, token: &Telnet) -> Result<Reply, Reason>
        ensures answer { IfOk result (λ reply.
            AnswersWith (any_answer self.old token.now) self.new reply) }
        ensures refused { IfErr result (λ reason.
            (reason ≡ UnsupportedTerminal) × (any_answer self.old token.now ≡ None)) }
        ensures unchanged { OnErr result (self.new ≡ self.old) }
    {
        match token {
            Telnet::Command(_) | Telnet::Option(_, _) => self.options.answer(token),
            Telnet::Sub(sub) => match name_in(sub) {
                Some(name) => self.take_name(name),
                None => self.options.answer(token),
            },
        }
    }

    // Takes a name.
    fn take_name(&mut self, name: &[u8]) -> Result<Reply, Reason>
        requires short { length name.now < 64 }
        ensures answer { (sub : ASub) → host.name_in sub ≡ Some name.now
            → IfOk result (λ reply.
            AnswersWith (any_answer self.old (Telnet.Sub sub)) self.new reply) }
        ensures refused { (sub : ASub) → host.name_in sub ≡ Some name.now
            → IfErr result (λ reason. (reason ≡ UnsupportedTerminal)
            × (any_answer self.old (Telnet.Sub sub) ≡ None)) }
        ensures unchanged { OnErr result (self.new ≡ self.old) }
    {
        let was_known = self.options.terminal().is_some();
        let reply = self.options.answer(&known_name())?;
        if !was_known && self.options.terminal().is_some() {
            self.told = copied(name);
        }
        Ok(reply)
    }

    /// Whether records are allowed: a name was told, and BINARY and END-OF-RECORD are on in both directions.
    pub fn records_allowed(&self) -> bool
        ensures { result ≡ host_allows_records self.now.host }
    {
        self.options.records_allowed()
    }

    /// The name that was told; empty before.
    pub fn name(&self) -> ToldName
        ensures { result ≡ self.now.name }
    {
        copied(self.told.as_slice())
    }
}

// The name that a subnegotiation brings, where it is IS (RFC 1091, section 2).
fn name_in(sub: &Sub) -> Option<&[u8]>
    ensures name { host.name_in sub.now ≡ option_map (λ name. name.now) result }
    ensures short { IfSome result (λ name. length name.now < 64) }
{
    if sub.option != TERMINAL_TYPE {
        return None;
    }
    match sub.data_.as_slice() {
        [IS, name @ ..] => Some(name),
        _ => None,
    }
}

// The token that tells a known name.
fn known_name() -> Telnet
    ensures { result ≡ spec.known_name }
{
    let mut content = ArrayVec::new();
    content.push(IS);
    content
        .try_extend_from_slice(TerminalType::Ibm3179Model2.name())
        .unwrap();
    Telnet::Sub(Sub {
        option: TERMINAL_TYPE,
        data_: ByteList::of(content),
    })
}

// A name as it came.
fn copied(name: &[u8]) -> ToldName
    requires { length name.now ≤ 64 }
    ensures { result ≡ name.now }
{
    let mut bytes = ArrayVec::new();
    bytes.try_extend_from_slice(name).unwrap();
    ByteList::of(bytes)
}

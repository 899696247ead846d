//! What a host end asks for and answers until records are allowed (RFC 854, 856, 885, 1091; RFC 4777, section 2).

ghost use Rattle.std.specs.Prelude.{◌≡◌, ◌≤◌, ◌+◌, ◌++◌, ◌∷◌, [], length, None, IfOk, IfErr, OnErr, option_map};
ghost use Rattle.ws_code.specs.declared.reason.Reason.TheVariants.{UnsupportedTerminal};
ghost use Rattle.ws_nego.specs.Options.{telnet_bytes, AnswersWith};
ghost use Rattle.ws_nego.specs.Station.{name_request};
ghost use Rattle.ws_nego.specs.Host as spec;
ghost use Rattle.ws_nego.specs.Host.{HostState, new_host, opening, after_open, request, requests, host_answer, host_allows_records};

use crate::TerminalType;
use crate::options::{
    Direction, IS, OptionTable, Reply, SEND, direction_at_host, no_reply, option_reply,
    push_option, refusal, terminal_type_reply,
};
use arrayvec::ArrayVec;
use std::marker::Model;
use ws_code::{ByteList, Reason};
use ws_telnet::{BINARY, END_OF_RECORD, Sub, TERMINAL_TYPE, Telnet, Verb};

/// What a host end knows of a direction.
#[derive(Clone, Copy, PartialEq, Eq)]
pub enum Mode {
    Off,
    /// The host end has asked for it, and has no answer yet.
    Asked,
    On,
}

// One enum, so that no name can be accepted without SEND.
/// What a host end knows of the terminal's name.
#[derive(Clone, Copy, PartialEq, Eq)]
pub enum TerminalName {
    Unknown,
    /// SEND was written, and no name has come yet.
    Requested,
    Accepted(TerminalType),
}

/// The options of a host end. It asks for the terminal's name first, and once it has accepted one
/// for BINARY and END-OF-RECORD in both directions (RFC 854, 856, 885, 1091; RFC 4777, section 2).
#[derive(Drop)]
pub struct HostOptions {
    modes: OptionTable<Mode>,
    name: TerminalName,
}

impl Model for HostOptions {
    ghost Value = { HostState };

    ghost view = { λ options. record { modes = options.modes; name = options.name } };
}

impl Mode {
    fn is_on(self) -> bool
        ensures { result ≡ spec.is_on self }
    {
        match self {
            Mode::On => true,
            Mode::Off | Mode::Asked => false,
        }
    }

    // What a direction is once it was asked for.
    fn once_requested(self) -> Mode
        ensures { result ≡ spec.mode_once_requested self }
    {
        match self {
            Mode::On => Mode::On,
            Mode::Off | Mode::Asked => Mode::Asked,
        }
    }
}

// What a direction is after the verb, and the verb of the answer.
fn host_row(verb: Verb, mode: Mode) -> (Mode, Option<Verb>)
    ensures { result ≡ spec.host_row verb mode }
{
    match (verb, mode) {
        (Verb::Will, Mode::Off) => (Mode::On, Some(Verb::Do)),
        (Verb::Will, _) => (Mode::On, None),
        (Verb::Do, Mode::Off) => (Mode::On, Some(Verb::Will)),
        (Verb::Do, _) => (Mode::On, None),
        (Verb::Wont, Mode::On) => (Mode::Off, Some(Verb::Dont)),
        (Verb::Wont, _) => (Mode::Off, None),
        (Verb::Dont, Mode::On) => (Mode::Off, Some(Verb::Wont)),
        (Verb::Dont, _) => (Mode::Off, None),
    }
}

// Asks for a direction that isn't on.
fn push_request(bytes: &mut ArrayVec<u8, 17>, mode: Mode, verb: Verb, option: u8)
    requires { length bytes.old.items + 3 ≤ 17 }
    ensures items { bytes.new.items ≡ bytes.old.items ++ telnet_bytes (request mode verb option) }
    ensures room { length bytes.new.items ≤ length bytes.old.items + 3 }
{
    match mode {
        Mode::On => {}
        Mode::Off | Mode::Asked => push_option(bytes, verb, option),
    }
}

// Asks for END-OF-RECORD and BINARY, in the directions that aren't on.
fn request_reply(modes: &OptionTable<Mode>) -> Reply
    ensures { result ≡ telnet_bytes (requests modes.now) }
{
    let mut bytes = ArrayVec::new();
    push_request(
        &mut bytes,
        modes.station_end_of_record,
        Verb::Do,
        END_OF_RECORD,
    );
    push_request(
        &mut bytes,
        modes.host_end_of_record,
        Verb::Will,
        END_OF_RECORD,
    );
    push_request(&mut bytes, modes.station_binary, Verb::Do, BINARY);
    push_request(&mut bytes, modes.host_binary, Verb::Will, BINARY);
    ByteList::of(bytes)
}

// SEND (RFC 1091, section 2).
fn send_reply() -> Reply
    ensures { result ≡ telnet_bytes (name_request ∷ []) }
{
    terminal_type_reply(SEND, &[])
}

impl HostOptions {
    /// The options of a new session: all are off, and no name is known.
    pub fn new() -> Self
        ensures { result ≡ new_host }
    {
        HostOptions {
            modes: OptionTable::uniform(Mode::Off),
            name: TerminalName::Unknown,
        }
    }

    /// Gives the first token of a session, which asks the station to perform TERMINAL-TYPE.
    pub fn open(&mut self) -> Reply
        ensures table { self.new ≡ after_open self.old }
        ensures reply { result ≡ telnet_bytes (opening ∷ []) }
    {
        self.modes.station_terminal_type = Mode::Asked;
        option_reply(Some(Verb::Do), TERMINAL_TYPE)
    }

    /// Takes a token from the station, and gives what the host end writes. An option that isn't in
    /// its table is refused. The first WILL TERMINAL-TYPE after `open` is answered by SEND, and the
    /// first name after SEND is judged: an accepted one is answered by the requests for what isn't
    /// on yet. Every other subnegotiation, and every command, has no effect.
    ///
    /// # Errors
    ///
    /// `UnsupportedTerminal` where the judged name is no terminal type's, and at WONT TERMINAL-TYPE
    /// before a name was accepted. The options are then unchanged.
    pub fn answer(&mut self, token: &Telnet) -> Result<Reply, Reason>
        ensures answer { IfOk result (λ reply.
            AnswersWith (host_answer self.old token.now) self.new reply) }
        ensures refused { IfErr result (λ reason.
            (reason ≡ UnsupportedTerminal) × (host_answer self.old token.now ≡ None)) }
        ensures unchanged { OnErr result (self.new ≡ self.old) }
    {
        match token {
            Telnet::Command(_) => Ok(no_reply()),
            Telnet::Option(verb, option) => self.answer_option(*verb, *option),
            Telnet::Sub(sub) => self.answer_sub(sub),
        }
    }

    fn answer_option(&mut self, verb: Verb, option: u8) -> Result<Reply, Reason>
        ensures answer { IfOk result (λ reply.
            AnswersWith (host_answer self.old (Telnet.Option verb option)) self.new reply) }
        ensures refused { IfErr result (λ reason. (reason ≡ UnsupportedTerminal)
            × (host_answer self.old (Telnet.Option verb option) ≡ None)) }
        ensures unchanged { OnErr result (self.new ≡ self.old) }
    {
        let Some(direction) = direction_at_host(verb, option) else {
            return Ok(option_reply(refusal(verb), option));
        };
        if self.is_name_withheld(verb, direction) {
            return Err(Reason::UnsupportedTerminal);
        }
        if self.is_name_offered(verb, direction) {
            self.modes.station_terminal_type = Mode::On;
            self.name = TerminalName::Requested;
            return Ok(send_reply());
        }
        let (mode, answer) = host_row(verb, self.modes.get(direction));
        self.modes.set(direction, mode);
        Ok(option_reply(answer, option))
    }

    // WONT TERMINAL-TYPE before a name was accepted.
    fn is_name_withheld(&self, verb: Verb, direction: Direction) -> bool
        ensures { result ≡ spec.is_name_withheld self.now verb direction }
    {
        match (verb, direction) {
            (Verb::Wont, Direction::StationTerminalType) => self.terminal().is_none(),
            _ => false,
        }
    }

    // WILL TERMINAL-TYPE that answers `open`, before SEND was written.
    fn is_name_offered(&self, verb: Verb, direction: Direction) -> bool
        ensures { result ≡ spec.is_name_offered self.now verb direction }
    {
        match (verb, direction) {
            (Verb::Will, Direction::StationTerminalType) => {
                self.modes.station_terminal_type == Mode::Asked
                    && self.name == TerminalName::Unknown
            }
            _ => false,
        }
    }

    fn answer_sub(&mut self, sub: &Sub) -> Result<Reply, Reason>
        ensures answer { IfOk result (λ reply.
            AnswersWith (host_answer self.old (Telnet.Sub sub.now)) self.new reply) }
        ensures refused { IfErr result (λ reason. (reason ≡ UnsupportedTerminal)
            × (host_answer self.old (Telnet.Sub sub.now) ≡ None)) }
        ensures unchanged { OnErr result (self.new ≡ self.old) }
    {
        let Some(name) = name_in(sub) else {
            return Ok(no_reply());
        };
        if self.name != TerminalName::Requested {
            return Ok(no_reply());
        }
        let Some(terminal) = TerminalType::from_name(name) else {
            return Err(Reason::UnsupportedTerminal);
        };
        let reply = request_reply(&self.modes);
        let modes = &mut self.modes;
        modes.station_binary = modes.station_binary.once_requested();
        modes.station_end_of_record = modes.station_end_of_record.once_requested();
        modes.host_binary = modes.host_binary.once_requested();
        modes.host_end_of_record = modes.host_end_of_record.once_requested();
        self.name = TerminalName::Accepted(terminal);
        Ok(reply)
    }

    /// Whether records are allowed: a name was accepted, and BINARY and END-OF-RECORD are on in
    /// both directions.
    pub fn records_allowed(&self) -> bool
        ensures { result ≡ host_allows_records self.now }
    {
        self.terminal().is_some()
            && self.modes.station_binary.is_on()
            && self.modes.station_end_of_record.is_on()
            && self.modes.host_binary.is_on()
            && self.modes.host_end_of_record.is_on()
    }

    /// The terminal whose name was accepted; none before.
    pub fn terminal(&self) -> Option<TerminalType>
        ensures { result ≡ spec.accepted_terminal self.now.name }
    {
        match self.name {
            TerminalName::Accepted(terminal) => Some(terminal),
            TerminalName::Unknown | TerminalName::Requested => None,
        }
    }
}

// The name that a subnegotiation brings, where it is IS (RFC 1091, section 2).
fn name_in(sub: &Sub) -> Option<&[u8]>
    ensures { spec.name_in sub.now ≡ option_map (λ name. name.now) result }
{
    if sub.option != TERMINAL_TYPE {
        return None;
    }
    match sub.data_.as_slice() {
        [IS, name @ ..] => Some(name),
        _ => None,
    }
}

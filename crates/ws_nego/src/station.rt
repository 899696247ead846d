//! What a display station answers until records are allowed (RFC 854, 856, 885, 1091; RFC 4777, section 2).

ghost use Rattle.std.specs.Prelude.{◌≡◌, ◌≤◌, ◌+◌, ◌++◌, ◌∷◌, [], length};
ghost use Rattle.ws_nego.specs.Options.{telnet_bytes};
ghost use Rattle.ws_nego.specs.Station as spec;
ghost use Rattle.ws_nego.specs.Station.{StationState, new_station, name_answer, station_answer, station_allows_records};

use crate::TerminalType;
use crate::options::{
    IS, OptionTable, Reply, SEND, direction_at_station, no_reply, option_reply, refusal,
    terminal_type_reply,
};
use std::marker::Model;
use ws_telnet::{Sub, TERMINAL_TYPE, Telnet, Verb};

/// The options of a display station. It performs BINARY, TERMINAL-TYPE and END-OF-RECORD when it is
/// asked to, lets the host end perform BINARY and END-OF-RECORD, and never asks by itself (RFC 854,
/// 856, 885, 1091; RFC 4777, section 2).
#[derive(Drop)]
pub struct StationOptions {
    terminal: TerminalType,
    on: OptionTable<bool>,
}

impl Model for StationOptions {
    ghost Value = { StationState };

    ghost view = { λ options. record { terminal = options.terminal; on = options.on } };
}

// What a direction is after the verb, and the verb of the answer.
fn station_row(verb: Verb, on: bool) -> (bool, Option<Verb>)
    ensures { result ≡ spec.station_row verb on }
{
    match (verb, on) {
        (Verb::Do, false) => (true, Some(Verb::Will)),
        (Verb::Do, true) => (true, None),
        (Verb::Will, false) => (true, Some(Verb::Do)),
        (Verb::Will, true) => (true, None),
        (Verb::Dont, false) => (false, None),
        (Verb::Dont, true) => (false, Some(Verb::Wont)),
        (Verb::Wont, false) => (false, None),
        (Verb::Wont, true) => (false, Some(Verb::Dont)),
    }
}

// IS, and the terminal's name (RFC 1091, section 2).
fn name_reply(terminal: TerminalType) -> Reply
    ensures { result ≡ telnet_bytes (name_answer terminal ∷ []) }
{
    terminal_type_reply(IS, terminal.name())
}

impl StationOptions {
    /// The options of a new session of this terminal: all are off.
    pub fn new(terminal: TerminalType) -> Self
        ensures { result ≡ new_station terminal }
    {
        StationOptions {
            terminal,
            on: OptionTable::uniform(false),
        }
    }

    /// Takes a token from the host end, and gives what the station writes. An option that isn't in
    /// its table is refused. SEND is answered by the terminal's name each time it comes while
    /// TERMINAL-TYPE is on. Every other subnegotiation, and every command, has no effect.
    pub fn answer(&mut self, token: &Telnet) -> Reply
        ensures table { self.new ≡ (station_answer self.old token.now).after }
        ensures reply { result ≡ telnet_bytes (station_answer self.old token.now).reply }
    {
        match token {
            Telnet::Command(_) => no_reply(),
            Telnet::Option(verb, option) => self.answer_option(*verb, *option),
            Telnet::Sub(sub) => self.answer_sub(sub),
        }
    }

    fn answer_option(&mut self, verb: Verb, option: u8) -> Reply
        ensures table { self.new ≡ (station_answer self.old (Telnet.Option verb option)).after }
        ensures reply { result
            ≡ telnet_bytes (station_answer self.old (Telnet.Option verb option)).reply }
    {
        let Some(direction) = direction_at_station(verb, option) else {
            return option_reply(refusal(verb), option);
        };
        let (on, answer) = station_row(verb, self.on.get(direction));
        self.on.set(direction, on);
        option_reply(answer, option)
    }

    fn answer_sub(&self, sub: &Sub) -> Reply
        ensures { result ≡ telnet_bytes (station_answer self.now (Telnet.Sub sub.now)).reply }
    {
        if is_name_request(sub) && self.on.station_terminal_type {
            name_reply(self.terminal)
        } else {
            no_reply()
        }
    }

    /// Whether records are allowed: BINARY and END-OF-RECORD are on in both directions.
    pub fn records_allowed(&self) -> bool
        ensures { result ≡ station_allows_records self.now }
    {
        self.on.station_binary
            && self.on.station_end_of_record
            && self.on.host_binary
            && self.on.host_end_of_record
    }
}

// Whether this is SEND (RFC 1091, section 2).
fn is_name_request(sub: &Sub) -> bool
    ensures { result ≡ spec.is_name_request sub.now }
{
    sub.option == TERMINAL_TYPE && sub.data_.as_slice() == [SEND].as_slice()
}

//! Directions of options, a table with an entry for each, and the bytes of a reply.

ghost use Rattle.std.specs.Prelude.{◌≡◌, ◌≤◌, ◌<◌, ◌+◌, ◌++◌, ◌∷◌, [], length};
ghost use Rattle.ws_telnet.specs.Token.{telnet_spelling};
ghost use Rattle.ws_nego.specs.Options as spec;
ghost use Rattle.ws_nego.specs.Options.{entry, with_entry, refusing_verb, option_tokens, terminal_type_token, telnet_bytes};

use arrayvec::ArrayVec;
use ws_code::ByteList;
use ws_telnet::{BINARY, END_OF_RECORD, Sub, TERMINAL_TYPE, Telnet, Token, Verb, spell};

/// What an end writes in answer to one token: at most 17 bytes.
pub type Reply = ByteList<17>;

/// The first byte of a subnegotiation of TERMINAL-TYPE that brings a name (RFC 1091, section 2).
pub const IS: u8 = 0;

/// The one byte of a subnegotiation of TERMINAL-TYPE that asks for a name (RFC 1091, section 2).
pub(crate) const SEND: u8 = 1;

/// One direction of an option: the end that performs it, and the option (RFC 854, "GENERAL
/// CONSIDERATIONS").
#[derive(Clone, Copy)]
pub(crate) enum Direction {
    StationBinary,
    StationTerminalType,
    StationEndOfRecord,
    HostBinary,
    HostEndOfRecord,
}

/// An entry for each direction.
#[derive(Clone, Copy)]
pub(crate) struct OptionTable<T> {
    pub(crate) station_binary: T,
    pub(crate) station_terminal_type: T,
    pub(crate) station_end_of_record: T,
    pub(crate) host_binary: T,
    pub(crate) host_end_of_record: T,
}

impl<T: Copy> OptionTable<T> {
    /// The table whose entries are all the same.
    pub(crate) fn uniform(value: T) -> Self
        ensures { result ≡ spec.uniform_table value }
    {
        OptionTable {
            station_binary: value,
            station_terminal_type: value,
            station_end_of_record: value,
            host_binary: value,
            host_end_of_record: value,
        }
    }

    /// The entry of a direction.
    pub(crate) fn get(&self, direction: Direction) -> T
        ensures { result ≡ entry self.now direction }
    {
        match direction {
            Direction::StationBinary => self.station_binary,
            Direction::StationTerminalType => self.station_terminal_type,
            Direction::StationEndOfRecord => self.station_end_of_record,
            Direction::HostBinary => self.host_binary,
            Direction::HostEndOfRecord => self.host_end_of_record,
        }
    }

    /// Replaces the entry of a direction.
    pub(crate) fn set(&mut self, direction: Direction, value: T)
        ensures { self.new ≡ with_entry self.old direction value }
    {
        match direction {
            Direction::StationBinary => self.station_binary = value,
            Direction::StationTerminalType => self.station_terminal_type = value,
            Direction::StationEndOfRecord => self.station_end_of_record = value,
            Direction::HostBinary => self.host_binary = value,
            Direction::HostEndOfRecord => self.host_end_of_record = value,
        }
    }
}

// The direction in which the station performs the option.
fn station_direction(option: u8) -> Option<Direction>
    ensures { result ≡ spec.station_direction option }
{
    match option {
        BINARY => Some(Direction::StationBinary),
        TERMINAL_TYPE => Some(Direction::StationTerminalType),
        END_OF_RECORD => Some(Direction::StationEndOfRecord),
        _ => None,
    }
}

// The direction in which the host end performs the option.
fn host_direction(option: u8) -> Option<Direction>
    ensures { result ≡ spec.host_direction option }
{
    match option {
        BINARY => Some(Direction::HostBinary),
        END_OF_RECORD => Some(Direction::HostEndOfRecord),
        _ => None,
    }
}

/// The direction of which the verb speaks to the station.
pub(crate) fn direction_at_station(verb: Verb, option: u8) -> Option<Direction>
    ensures { result ≡ spec.direction_at_station verb option }
{
    match verb {
        Verb::Do | Verb::Dont => station_direction(option),
        Verb::Will | Verb::Wont => host_direction(option),
    }
}

/// The direction of which the verb speaks to the host end.
pub(crate) fn direction_at_host(verb: Verb, option: u8) -> Option<Direction>
    ensures { result ≡ spec.direction_at_host verb option }
{
    match verb {
        Verb::Do | Verb::Dont => host_direction(option),
        Verb::Will | Verb::Wont => station_direction(option),
    }
}

/// The answer to a verb whose direction isn't in the table (RFC 854, "GENERAL CONSIDERATIONS").
pub(crate) fn refusal(verb: Verb) -> Option<Verb>
    ensures { result ≡ refusing_verb verb }
{
    match verb {
        Verb::Do => Some(Verb::Wont),
        Verb::Will => Some(Verb::Dont),
        Verb::Dont | Verb::Wont => None,
    }
}

// Appends a token's spelling.
fn push_token(bytes: &mut ArrayVec<u8, 17>, token: Telnet)
    requires { length bytes.old.items + length (telnet_spelling token) ≤ 17 }
    ensures { bytes.new.items ≡ bytes.old.items ++ telnet_spelling token }
{
    let mut spelling = ArrayVec::new();
    spell(&Token::Telnet(token), &mut spelling);
    // It fits, by the clause above.
    bytes.try_extend_from_slice(spelling.as_slice()).unwrap();
}

/// Appends the token of a verb and an option.
pub(crate) fn push_option(bytes: &mut ArrayVec<u8, 17>, verb: Verb, option: u8)
    requires { length bytes.old.items + 3 ≤ 17 }
    ensures { bytes.new.items
        ≡ bytes.old.items ++ telnet_bytes (option_tokens (Some verb) option) }
{
    push_token(bytes, Telnet::Option(verb, option));
}

/// The reply of one option token, or the empty one where there is no verb.
pub(crate) fn option_reply(verb: Option<Verb>, option: u8) -> Reply
    ensures { result ≡ telnet_bytes (option_tokens verb option) }
{
    let mut bytes = ArrayVec::new();
    if let Some(verb) = verb {
        push_option(&mut bytes, verb, option);
    }
    ByteList::of(bytes)
}

/// The reply of one subnegotiation of TERMINAL-TYPE.
pub(crate) fn terminal_type_reply(code: u8, name: &[u8]) -> Reply
    requires short { length name.now < 64 }
    requires fits { length (telnet_spelling (terminal_type_token code name.now)) ≤ 17 }
    ensures { result ≡ telnet_bytes (terminal_type_token code name.now ∷ []) }
{
    let mut content = ArrayVec::new();
    content.push(code);
    content.try_extend_from_slice(name).unwrap();
    let mut bytes = ArrayVec::new();
    push_token(
        &mut bytes,
        Telnet::Sub(Sub {
            option: TERMINAL_TYPE,
            data_: ByteList::of(content),
        }),
    );
    ByteList::of(bytes)
}

/// The empty reply.
pub(crate) fn no_reply() -> Reply
    ensures { result ≡ [] }
{
    ByteList::of(ArrayVec::new())
}

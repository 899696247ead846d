//! What a Telnet stream is made of: bytes of records, ends of records, and commands (RFC 854, 855, 885).

ghost use Rattle.std.specs.Prelude.{◌≡◌, ◌≤◌, ◌<◌, length, SomeIff};
ghost use Rattle.ws_telnet.specs.Token.{command_byte, verb_byte};

use arrayvec::ArrayVec;
use ws_code::ByteList;

/// A command that stands alone after IAC (RFC 854, "TELNET COMMAND STRUCTURE").
#[derive(Clone, Copy, Debug, PartialEq, Eq)]
pub enum CommandCode {
    /// NOP, F1: no operation.
    Nop,
    /// DM, F2: the part of a Synch that stands in the data.
    DataMark,
    /// BRK, F3: the break key.
    Break,
    /// IP, F4: the process is to be interrupted.
    InterruptProcess,
    /// AO, F5: the process is to run to its end, and its output isn't to be sent.
    AbortOutput,
    /// AYT, F6: the other end is asked for a sign that it is there.
    AreYouThere,
    /// EC, F7: the last character is to be erased.
    EraseCharacter,
    /// EL, F8: the last line is to be erased.
    EraseLine,
    /// GA, F9: the other end may send.
    GoAhead,
}

impl CommandCode {
    /// Its byte, F1 to F9 in hexadecimal.
    pub fn byte(self) -> u8
        ensures { result ≡ command_byte self }
    {
        match self {
            CommandCode::Nop => 0xf1,
            CommandCode::DataMark => 0xf2,
            CommandCode::Break => 0xf3,
            CommandCode::InterruptProcess => 0xf4,
            CommandCode::AbortOutput => 0xf5,
            CommandCode::AreYouThere => 0xf6,
            CommandCode::EraseCharacter => 0xf7,
            CommandCode::EraseLine => 0xf8,
            CommandCode::GoAhead => 0xf9,
        }
    }
}

/// What an end says of an option (RFC 854, "TELNET COMMAND STRUCTURE").
#[derive(Clone, Copy, Debug, PartialEq, Eq)]
pub enum Verb {
    /// FB: the sender offers to perform the option, or confirms that it performs it.
    Will,
    /// FC: the sender refuses to perform the option, or stops.
    Wont,
    /// FD: the sender asks the other end to perform the option, or confirms that it may.
    Do,
    /// FE: the sender wants the other end not to perform the option, or to stop.
    Dont,
}

impl Verb {
    /// Its byte, FB to FE in hexadecimal.
    pub fn byte(self) -> u8
        ensures { result ≡ verb_byte self }
    {
        match self {
            Verb::Will => 0xfb,
            Verb::Wont => 0xfc,
            Verb::Do => 0xfd,
            Verb::Dont => 0xfe,
        }
    }
}

/// A subnegotiation (RFC 855): its option, and at most 64 bytes.
#[derive(Debug, Drop, PartialEq, Eq)]
pub struct Sub {
    /// The option's byte, which is any.
    pub option: u8,
    /// The bytes between the option and the end. An FF among them is spelled FF FF.
    // Not data, which is a word of the contract language.
    pub data_: ByteList<64>,
}

impl Sub {
    /// The subnegotiation of this option and these bytes; none where they are more than 64.
    pub fn new(option: u8, bytes: &[u8]) -> Option<Sub>
        ensures { SomeIff result (length bytes.now ≤ 64)
            (record { option = option; data_ = bytes.now }) }
    {
        let content = ArrayVec::try_from(bytes).ok()?;
        Some(Sub {
            option,
            data_: ByteList::of(content),
        })
    }
}

/// A Telnet command, of any kind (RFC 854, "TELNET COMMAND STRUCTURE").
#[derive(Debug, Drop, PartialEq, Eq)]
pub enum Telnet {
    /// FF and the code's byte.
    Command(CommandCode),
    /// FF, the verb's byte and the option's, which is any and isn't doubled.
    Option(Verb, u8),
    /// FF FA, the option's byte, the data, and FF F0.
    Sub(Sub),
}

/// What a stream of bytes is made of (RFC 854; EOR: RFC 885).
#[derive(Debug, Drop, PartialEq, Eq)]
pub enum Token {
    /// A byte of a record. FF is spelled FF FF.
    Data(u8),
    /// The end of a record, FF EF (RFC 885).
    Eor,
    /// A Telnet command. It may stand inside a record too.
    Telnet(Telnet),
}

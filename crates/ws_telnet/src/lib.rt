//! Telnet tokens: bytes to tokens and back (RFC 854; EOR: RFC 885).
#![tactic(auto)]

mod codes;
mod token;
mod tokens;
mod word;
mod write;

pub use codes::{BINARY, END_OF_RECORD, EOR, IAC, SB, SE, TERMINAL_TYPE};
pub use token::{CommandCode, Sub, Telnet, Token, Verb};
pub use tokens::Tokens;
pub use word::{TelnetWord, Word};
pub use write::{spell, write_telnet, write_token};

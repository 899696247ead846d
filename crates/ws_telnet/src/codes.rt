//! The bytes that begin and end commands, and the codes of the three options.

/// Interpret as command, which begins each Telnet command (RFC 854, "TELNET COMMAND STRUCTURE").
pub const IAC: u8 = 0xff;

/// Begins a subnegotiation after IAC (RFC 854, "TELNET COMMAND STRUCTURE").
pub const SB: u8 = 0xfa;

/// Ends a subnegotiation after IAC (RFC 854, "TELNET COMMAND STRUCTURE").
pub const SE: u8 = 0xf0;

/// Ends a record after IAC (RFC 885, section 1).
pub const EOR: u8 = 0xef;

/// The option Transmit Binary (RFC 856, section 1).
pub const BINARY: u8 = 0x00;

/// The option Terminal Type (RFC 1091, section 1).
pub const TERMINAL_TYPE: u8 = 0x18;

/// The option End of Record (RFC 885, section 1).
pub const END_OF_RECORD: u8 = 0x19;

//! The codes of the orders in a host's body and in an answer (SC30-3533, orders).

/// Start of Header.
pub const START_OF_HEADER: u8 = 0x01;

/// Repeat to Address.
pub const REPEAT_TO_ADDRESS: u8 = 0x02;

/// Erase to Address.
pub const ERASE_TO_ADDRESS: u8 = 0x03;

/// Set Buffer Address.
pub const SET_BUFFER_ADDRESS: u8 = 0x11;

/// Insert Cursor.
pub const INSERT_CURSOR: u8 = 0x13;

/// Move Cursor.
pub const MOVE_CURSOR: u8 = 0x14;

/// Start of Field.
pub const START_OF_FIELD: u8 = 0x1d;

// Those that are left out.

/// Transparent Data.
pub const TRANSPARENT_DATA: u8 = 0x10;

/// Write Extended Attribute.
pub const WRITE_EXTENDED_ATTRIBUTE: u8 = 0x12;

/// Write to Display Structured Field.
pub const WRITE_TO_DISPLAY_STRUCTURED_FIELD: u8 = 0x15;

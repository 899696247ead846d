//! The codes of the commands in a host's body, each after an escape (SC30-3533, commands).
// Apart from the orders' codes, since both have an 11.

/// Stands before each command.
pub const ESCAPE: u8 = 0x04;

/// Write to Display.
pub const WRITE_TO_DISPLAY: u8 = 0x11;

/// Clear Unit.
pub const CLEAR_UNIT: u8 = 0x40;

/// Clear Format Table.
pub const CLEAR_FORMAT_TABLE: u8 = 0x50;

/// Read Input Fields.
pub const READ_INPUT_FIELDS: u8 = 0x42;

/// Read MDT Fields.
pub const READ_MDT_FIELDS: u8 = 0x52;

/// Read MDT Fields Alternate.
pub const READ_MDT_FIELDS_ALTERNATE: u8 = 0x82;

// Those that are left out.

/// Save Screen.
pub const SAVE_SCREEN: u8 = 0x02;

/// Save Partial Screen.
pub const SAVE_PARTIAL_SCREEN: u8 = 0x03;

/// Restore Screen.
pub const RESTORE_SCREEN: u8 = 0x12;

/// Restore Partial Screen.
pub const RESTORE_PARTIAL_SCREEN: u8 = 0x13;

/// Clear Unit Alternate.
pub const CLEAR_UNIT_ALTERNATE: u8 = 0x20;

/// Write Error Code.
pub const WRITE_ERROR_CODE: u8 = 0x21;

/// Write Error Code to Window.
pub const WRITE_ERROR_CODE_TO_WINDOW: u8 = 0x22;

/// Roll.
pub const ROLL: u8 = 0x23;

/// Read Screen.
pub const READ_SCREEN: u8 = 0x62;

/// Read Screen with Extended Attributes.
pub const READ_SCREEN_EXTENDED: u8 = 0x64;

/// Read Screen to Print.
pub const READ_SCREEN_TO_PRINT: u8 = 0x66;

/// Read Screen to Print with Extended Attributes.
pub const READ_SCREEN_TO_PRINT_EXTENDED: u8 = 0x68;

/// Read Screen to Print with Gridlines.
pub const READ_SCREEN_TO_PRINT_GRIDLINES: u8 = 0x6a;

/// Read Screen to Print with Extended Attributes and Gridlines.
pub const READ_SCREEN_TO_PRINT_EXTENDED_GRIDLINES: u8 = 0x6c;

/// Read Immediate.
pub const READ_IMMEDIATE: u8 = 0x72;

/// Read Modified Immediate Alternate.
pub const READ_MDT_IMMEDIATE_ALTERNATE: u8 = 0x83;

/// Write Structured Field.
pub const WRITE_STRUCTURED_FIELD: u8 = 0xf3;

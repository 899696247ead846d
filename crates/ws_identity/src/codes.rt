//! The numbers of the option NEW-ENVIRON.

/// The option New Environment (RFC 1572, section 1).
pub const NEW_ENVIRON: u8 = 0x27;

/// Begins the variables that are told (RFC 1572, section 2).
pub const IS: u8 = 0;

/// Begins the names that are asked for (RFC 1572, section 2).
pub const SEND: u8 = 1;

/// Stands before a variable's value (RFC 1572, section 2).
pub const VALUE: u8 = 1;

/// Stands before the name of a variable that isn't among the standard's own (RFC 1572, section 2).
pub const USERVAR: u8 = 3;

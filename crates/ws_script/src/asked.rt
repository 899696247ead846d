//! What is asked of a live session, and why it isn't done.

pub(crate) mod fault;
pub(crate) mod live_address;
pub(crate) mod open_streams;
pub(crate) mod sender;

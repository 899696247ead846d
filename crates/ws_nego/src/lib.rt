//! Option negotiation: what a display station and a host end answer to each Telnet token, until
//! both allow records (RFC 854, 856, 885, 1091; for the IBM 5250: RFC 1205 and RFC 4777).
//!
//! Whatever the order in which the tokens of a session arrive, both ends come to the same options:
//! see [`exchanges_agree`] and [`three_deliveries_suffice`]. No call takes memory.
#![tactic(auto)]

mod exchange;
mod host;
mod options;
mod station;
mod terminal;

pub use exchange::{dialogues_agree, exchanges_agree, once_allowed, three_deliveries_suffice};
pub use host::HostOptions;
pub use options::Reply;
pub use station::StationOptions;
pub use terminal::TerminalType;

//! A station with the display that live hosts use: what they send beside the profile is carried out, and what they ask
//! at once is told (SC30-3533, commands). No call takes memory.
#![tactic(auto)]

mod carrying_out;
mod extended_display;
mod extended_key;
mod extended_reply;
mod heard;
mod laws;
mod record_bytes;
mod unit_reader;

pub use extended_display::{ExtendedDisplay, ExtendedStation};
pub use extended_key::ExtendedKey;
pub use extended_reply::ExtendedReply;
pub use laws::{
    acts_as_profile, only_writes_sound, reset_takes_errors_back, saved_screen_comes_back,
    writes_nothing_else,
};

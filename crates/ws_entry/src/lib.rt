//! What a field's format word asks of an operator beside the profile (SC30-3533, field format word): a display that
//! acts on it, and a station on that. No call takes memory.
#![tactic(auto)]

mod entered_key;
mod entering;
mod entry_display;
mod laws;
mod leaving;
mod pressing;
mod rules;
mod typed_key;

pub use entering::Entering;
pub use entry_display::{EntryDisplay, EntryStation};
pub use laws::asks_no_more;
pub use pressing::press_key;
pub use typed_key::TypedKey;

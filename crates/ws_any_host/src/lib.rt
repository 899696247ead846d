//! A host for tests of emulators, which takes any record and any terminal name, and judges nothing.
#![tactic(auto)]

mod any;
mod any_event;
mod any_host;
mod any_line;
mod any_move;
mod any_options;
mod any_text;
mod end;
mod names;

pub use any::Any;
pub use any_event::AnyEvent;
pub use any_host::AnyHost;
pub use any_line::AnyLine;
pub use any_options::{AnyOptions, ToldName};
pub use any_text::put_any_event;
pub use names::names_are_free;
pub use ws_live::carry_on;

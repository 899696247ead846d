//! What both ends of a connection sent, as one dialogue in the order of time: each item and each refusal of either end.
#![tactic(auto)]

mod dialogue;
mod entry;
mod extended_record;
mod piece;
mod reader;
mod told;
mod trace;
mod trace_objects;
mod trace_text;
mod traced;
mod tracer;

pub use dialogue::{Dialogue, EndCount};
pub use entry::{EndTold, Entry};
pub use extended_record::apply_extended_record;
pub use piece::{Piece, TracedEnd};
pub use reader::Reader;
pub use told::Told;
pub use trace::{dialogue_of, trace_to};
pub use trace_text::{Heads, TraceForm};

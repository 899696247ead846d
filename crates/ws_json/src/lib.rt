//! Items, refusals and the end of a stream as JSON (RFC 8259): each is an object on a line of its own.
#![tactic(auto)]

mod json_item;
mod line_strings;
mod quoted;
mod telnet_words;

pub use json_item::{put_json_item, put_json_refusal, put_json_truncated};

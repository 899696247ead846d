//! What the words of the program `t5250` ask for: something of an input, or a live session.
mod command_line;
mod command_parts;
mod host_words;
mod identity_words;
mod input_help;
mod live_command;
mod page_words;
mod show_words;
mod table_command;
mod trace_words;
mod wrong_word;

pub use command_line::{InputAsked, RecordedEnd, StreamForm, Task};
pub(crate) use command_line::{no_text, read_words};
pub use show_words::ShowForm;

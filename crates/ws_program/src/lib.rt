//! What the program `t5250` does by the words of its command line: it checks and shows recorded 5250 streams (RFC
//! 1205), makes them from text, plays scripts with both ends, and runs live sessions. All of it stands over any sink; a
//! file is named only where one is opened.
#![tactic(auto)]

mod all_told;
mod check_all;
mod command_fault;
mod file_checks;
mod file_fault;
mod hex_text;
mod input;
mod make;
mod program;
mod recorded;
mod running;
mod show;
mod show_all;
mod shown;
mod sources;
mod stream_bytes;
mod stream_trace;
mod tables;
mod telling;
mod traced;
mod words;

pub use command_fault::CommandFault;
pub use file_checks::FileChecks;
pub use file_fault::Unreadable;
pub use hex_text::{TextFault, hex_bytes};
pub use program::{answer, status};
pub use recorded::recorded_bytes;
pub use running::run;
pub use show::show_to;
pub use sources::{check_source_openly, show_source_openly};
pub use stream_trace::StreamTrace;
pub use tables::{Table, reason_numbered};
pub use words::{InputAsked, RecordedEnd, ShowForm, StreamForm};
pub use ws_printing::{check_from, check_to};

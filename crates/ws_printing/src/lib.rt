//! What is printed of streams, screens, fields, reports and events, and the buffer before an output; and scripts of
//! moves, with the names of keys.
#![tactic(auto)]

mod buffered_sink;
mod characters;
mod check;
mod colored_cells;
mod look;
mod operated_display;
mod paint;
mod place_and_reason;
mod play;
mod report_lines;
mod screen_lines;
mod script;
mod shown_on_page;
mod shown_text;
mod station_report;
mod verdict;

pub use buffered_sink::BufferedSink;
pub use check::{check_from, check_to, verdict_from, verdict_of};
pub use colored_cells::put_char;
pub use look::Look;
pub use operated_display::{OperatedDisplay, put_error_row};
pub use paint::Paint;
pub use place_and_reason::PlaceAndReason;
pub use play::{Play, play_painted_to, play_to, put_event, put_key_fault, put_told};
pub use report_lines::{put_field_lines, put_note, put_report};
pub use screen_lines::{put_display, put_screen};
pub use script::key_line::{named_key, typed_keys};
pub use script::key_name::aid_named;
pub use script::named_key::NamedKey;
pub use script::script_move::{read_move, read_opcode, split_word};
pub use script::{ScriptFault, read_script};
pub use shown_on_page::{page_037, page_037_shows_as_screen};
pub use shown_text::{begins_at, shows};
pub use station_report::{Span, StationReport, StationStatus};
pub use verdict::{Verdict, VerdictLine, verdict_by_fault};

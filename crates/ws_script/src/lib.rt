//! Scripts of live sessions: their lines and the words of these, why a line is bad or a run is at fault, and what is
//! asked of a session.
#![tactic(auto)]

mod asked;
mod cause;
mod lines;

pub use asked::fault::{RunFault, ToldFault, Unconnected, no_connection};
pub use asked::live_address::{HostPort, host_and_port, listening_address};
pub use asked::open_streams::OpenStreams;
pub use asked::sender::Sender;
pub use cause::cause_lines::{cause_at, cause_in_block};
pub use cause::causes::cause_of;
pub use cause::told_line::bad_line;
pub use cause::vocabulary::{Switch, Vocabulary};
pub use cause::{Cause, Known, cause_text};
pub use lines::connect_line::{Awaited, StationLine};
pub use lines::live_line::{LiveLine, NumberedLine, is_indented, read_lines};
pub use lines::script_stroke::{FieldFault, FieldFilling, ScriptStroke};
pub use lines::serve_line::{AnswerAwaited, HostLine};
pub use lines::wire_line::WireLine;
pub use lines::wire_words::read_wire;
pub use ws_printing::{NamedKey, ScriptFault, aid_named, read_script};

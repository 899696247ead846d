//! All that names a socket or a clock. Live sessions over a connection: a station at a host, and a host for one station,
//! by the lines of a script or of standard input; and sessions of both ends over one.
#![tactic(auto)]

mod connecting;
mod files;
mod input_lines;
mod line_help;
mod listening;
mod live_input;
mod live_runtime;
mod live_session;
mod lookout;
mod recording;
mod served_line;
mod serving;
mod tcp;
mod timed_sink;
mod timed_source;
mod timer;
mod turns;

pub use line_help::{CONNECT_HELP, SERVE_HELP};
pub use live_session::run_live;
pub use tcp::{TcpFault, play_tcp};

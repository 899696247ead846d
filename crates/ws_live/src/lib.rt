//! Live sessions by lines: what the lines of a script do and print at either end, over any devices.
#![tactic(auto)]

mod live;
mod session_asked;

pub use live::carried_wire::carry_wire;
pub use live::host_closing::{HeardEnd, hear_one, hear_until, put_given};
pub use live::live_station::LiveStation;
pub use live::repeated::carry_on;
pub use live::watch::{WaitSpan, Watch};
pub use live::{
    AfterUnwell, Carried, Closing, LineSettings, LiveMove, LiveSession, Ran, Telling, carry_line,
    carry_lines, hand_on, put_bad,
};
pub use session_asked::{ConnectAsked, ServeAsked, SessionAsked};

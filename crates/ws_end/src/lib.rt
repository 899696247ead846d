//! Each end of a 5250 session: a driver of what reacts, the station on any display, the host end, and either on a
//! source and a sink (RFC 1205, RFC 4777).
#![tactic(auto)]

mod attached;
mod driver;
mod end;
mod end_step;
mod host_end;
mod refusal;
mod station;

pub use attached::Attached;
pub use attached::acted::Acted;
pub use attached::acting::Acting;
pub use attached::keyed::Keyed;
pub use attached::run::{Played, run_station};
pub use driver::Driver;
pub use driver::halt::Halt;
pub use driver::reacts::Reacts;
pub use end::End;
pub use end_step::{Applied, EndFed, EndStep, HostRequest, Sent};
pub use host_end::host_event::{HostEvent, HostStep};
pub use host_end::send_fault::SendFault;
pub use host_end::{Host, HostEnd};
pub use refusal::Refusal;
pub use station::alarm::{ALARM, count_alarm};
pub use station::answer::{ATN, SRQ, write_answer};
pub use station::apply::apply_record;
pub use station::body_bytes::BodyBytes;
pub use station::key_fault::KeyFault;
pub use station::profile_display::ProfileDisplay;
pub use station::station_display::StationDisplay;
pub use station::{AtStation, Station, StationOn};

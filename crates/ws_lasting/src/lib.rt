//! A station that no record ends (RFC 1205, flag ERR; SC30-3533, negative responses). It may have an identity, which a
//! host asks for by NEW-ENVIRON (RFC 1572, RFC 4777).
#![tactic(auto)]

mod end;
mod lasting;
mod lasting_reply;
mod laws;
mod negative;
mod record_counts;
mod record_event;

pub use lasting::LastingStation;
pub use lasting_reply::{LastingReply, LastingStep};
pub use laws::{judged_one_way, lasts_as_station, others_as_before};
pub use record_counts::RecordCounts;
pub use record_event::{RecordEvent, RefusedRecord};

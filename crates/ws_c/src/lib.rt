//! The C interface of a display station, of a host's end and of the decoder of a host's stream: a static library of thin
//! exports.
#![tactic(auto)]

mod attribute_look;
mod buffer;
mod byte_put;
mod cell_fields;
mod code_page;
mod decoder;
mod field_text;
mod field_told;
mod handle;
mod held;
mod held_end;
mod host;
mod host_answer;
mod host_screen;
mod host_send;
mod key_kind;
mod live_end;
mod live_keys;
mod live_station;
mod loose;
mod machine;
mod owned;
mod page_text;
mod push;
mod reason_text;
mod spelling;
mod state_told;
mod station;
mod station_cells;
mod station_keys;
mod station_kind;
mod station_screen;
mod station_strokes;
mod status;
mod stroke;
mod told;
mod wire;

pub use attribute_look::LookTold;
pub use decoder::StepTold;
pub use field_told::FieldTold;
pub use handle::Handle;
pub(crate) use held_end::HeldEnd;
pub use host::EventTold;
pub(crate) use host::HeldHost;
pub use host_answer::{AnswerTold, ReadFieldTold};
pub(crate) use live_station::{HeldLive, LiveStation};
pub(crate) use machine::Machine;
pub use spelling::GivenElement;
pub(crate) use state_told::NO_FIELD;
pub use state_told::StateTold;
pub use station_cells::CellTold;
pub(crate) use status::Status;
pub(crate) use told::REPLY_ROOM;
pub use told::{PushedTold, Told};

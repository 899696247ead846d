//! Records of the 5250 data stream over any body (RFC 1205), and streams of them.
#![tactic(auto)]

mod body_reader;
mod decode;
mod encoder;
mod item_writer;
mod laws;
mod live;
mod news;
mod opcode;
mod open_record;
mod raw;
mod receiver;
mod record;
mod record_writer;

pub use body_reader::{BodyFault, read_body};
pub use decode::{decode_all, decode_from};
pub use encoder::{EncodeFault, encode, encode_to};
pub use laws::{
    decode_both_ways, encode_and_decode, encoding_spells_its_items, fronts_hold_items, one_fault,
    one_reading, one_refusal, one_truncation,
};
pub use live::{Live, Step, Stepped};
pub use news::{Advance, News};
pub use opcode::Opcode;
pub use raw::RawBody;
pub use receiver::{Fed, Receiver};
pub use record::{Head, Item, Record};
pub use record_writer::{header_bytes, write_record};
// Handed on, so that a caller names one crate.
pub use ws_code::{
    Body, Code, DeviceFailed, Fault, List, Push, ReadSource, Reason, Sink, SliceSource, Source,
    VecSink, WriteSink, write_whole,
};
pub use ws_telnet::{CommandCode, Sub, Telnet, TelnetWord, Verb};

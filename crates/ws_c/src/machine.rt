//! What a handle can hold.
use crate::{HeldEnd, HeldHost, HeldLive};
use std::alloc::Global;
use ws_extended::ExtendedCommands;
use ws_extended_station::{ExtendedReply, ExtendedStation};
use ws_record::Live;
use ws_session::{Reply, Station};
use ws_stream::Commands;

/// What a handle can hold, each in a box of its own size.
#[derive(Drop)]
pub(crate) enum Machine {
    /// A display station.
    Station(Box<HeldEnd<Station, Reply>, Global>),
    /// A display station as live hosts use it.
    ExtendedStation(Box<HeldEnd<ExtendedStation, ExtendedReply>, Global>),
    /// A display station that no refused record ends.
    LiveStation(Box<HeldLive, Global>),
    /// A decoder of a host's stream.
    Decoder(Box<Live<Commands>, Global>),
    /// A decoder of a live host's stream.
    ExtendedDecoder(Box<Live<ExtendedCommands>, Global>),
    /// A host's end of a session.
    Host(Box<HeldHost, Global>),
}

//! What is told of both ends' streams, and when.
ghost use Rattle.std.specs.Prelude.{◌≡◌};
ghost use Rattle.ws_trace.specs.TraceText as Spec;

use crate::{Told, TracedEnd};
use ws_extended::{ExtendedAnswerPart, ExtendedElement};

/// What an end's stream tells.
#[derive(Debug, Drop, PartialEq, Eq)]
pub enum EndTold {
    Host(Told<ExtendedElement>),
    Station(Told<ExtendedAnswerPart>),
}

/// What is told of a byte: when it came, and its place in its end's stream, counted from 0.
#[derive(Debug, Drop, PartialEq, Eq)]
pub struct Entry {
    pub milliseconds: u64,
    pub place: u64,
    pub told: EndTold,
}

impl EndTold {
    /// Whose stream tells it.
    pub fn sender(&self) -> TracedEnd
        ensures { result ≡ Spec.sender_of self.now }
    {
        match self {
            EndTold::Host(_) => TracedEnd::Host,
            EndTold::Station(_) => TracedEnd::Station,
        }
    }

    /// Whether a record of this end is whole.
    pub fn is_record_of(&self, end: TracedEnd) -> bool
        ensures { result ≡ Spec.tells_record end self.now }
    {
        match (end, self) {
            (TracedEnd::Host, EndTold::Host(told)) => told.is_record(),
            (TracedEnd::Station, EndTold::Station(told)) => told.is_record(),
            _ => false,
        }
    }

    /// Whether something of this end is refused.
    pub fn is_refusal_of(&self, end: TracedEnd) -> bool
        ensures { result ≡ Spec.tells_refusal end self.now }
    {
        match (end, self) {
            (TracedEnd::Host, EndTold::Host(told)) => told.is_refusal(),
            (TracedEnd::Station, EndTold::Station(told)) => told.is_refusal(),
            _ => false,
        }
    }
}

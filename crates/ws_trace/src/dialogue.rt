//! What both ends of a connection sent, in the order of time.
ghost use Rattle.std.specs.Prelude.{◌≡◌};
ghost use Rattle.ws_trace.specs.TraceText as Spec;

use crate::{Entry, TracedEnd};

/// How many bytes an end sent, and whether its stream may end with them: outside a token and a record.
#[derive(Clone, Copy, Debug, PartialEq, Eq)]
pub struct EndCount {
    pub bytes: u64,
    pub is_whole: bool,
}

/// What is told of both ends' streams in the order of time, and how these end.
#[derive(Debug, Drop)]
pub struct Dialogue {
    pub entries: Vec<Entry>,
    pub host: EndCount,
    pub station: EndCount,
}

impl Dialogue {
    /// Whether nothing is refused, and no stream ends too early.
    pub fn is_unrefused(&self) -> bool
        ensures { result ≡ Spec.is_unrefused self.now }
    {
        let entries = self.entries.as_slice();
        self.host.is_whole
            && self.station.is_whole
            && tally_of(entries, TracedEnd::Host).refusals == 0
            && tally_of(entries, TracedEnd::Station).refusals == 0
    }
}

/// How many records of an end are whole, and how often something of it is refused.
#[derive(Clone, Copy)]
pub(crate) struct Tally {
    pub(crate) records: usize,
    pub(crate) refusals: usize,
}

/// What is counted of an end.
pub(crate) fn tally_of(entries: &[Entry], end: TracedEnd) -> Tally
    ensures records { result.records ≡ Spec.end_records end entries.now }
    ensures refusals { result.refusals ≡ Spec.end_refusals end entries.now }
{
    let mut records = 0;
    let mut refusals = 0;
    for entry in entries {
        records += usize::from(entry.told.is_record_of(end));
        refusals += usize::from(entry.told.is_refusal_of(end));
    }
    Tally { records, refusals }
}

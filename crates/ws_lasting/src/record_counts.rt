//! What a session has come to.
ghost use Rattle.std.specs.Prelude.{◌≡◌, ◌∷◌, []};
ghost use Rattle.ws_lasting.specs.Counting.{IsCounted};

use crate::{RecordEvent, RefusedRecord};

/// How many records of a session were carried out, how many were refused, and the last that was.
#[derive(Clone, Copy, Debug, PartialEq, Eq)]
pub struct RecordCounts {
    /// How many were carried out.
    pub carried_out: u64,
    /// How many were refused.
    pub refused: u64,
    /// The last that was refused.
    pub last: Option<RefusedRecord>,
}

impl RecordCounts {
    /// None yet.
    pub(crate) fn new() -> Self
        ensures { result ≡ record { carried_out = 0; refused = 0; last = None } }
    {
        RecordCounts {
            carried_out: 0,
            refused: 0,
            last: None,
        }
    }

    /// With one record more.
    pub(crate) fn with(self, judged: RecordEvent) -> Self
        ensures { IsCounted self (judged ∷ []) result }
    {
        match judged {
            RecordEvent::CarriedOut => RecordCounts {
                carried_out: self.carried_out.saturating_add(1),
                ..self
            },
            RecordEvent::Refused(record) => RecordCounts {
                refused: self.refused.saturating_add(1),
                last: Some(record),
                ..self
            },
        }
    }
}

//! What is told of a byte of a stream.
ghost use Rattle.std.specs.Prelude.{◌≡◌};
ghost use Rattle.ws_trace.specs.TraceText as Spec;

use ws_code::Reason;
use ws_record::Item;

/// What is told of a byte of a stream.
#[derive(Debug, Drop, PartialEq, Eq)]
pub enum Told<U> {
    /// An item is whole with it.
    Whole(Item<U>),
    /// It is refused, or the record is that is whole with it.
    Refused(Reason),
}

impl<U> Told<U> {
    /// Whether a record is whole.
    pub fn is_record(&self) -> bool
        ensures { result ≡ Spec.is_whole_record self.now }
    {
        matches!(self, Told::Whole(Item::Record(_)))
    }

    /// Whether something is refused.
    pub fn is_refusal(&self) -> bool
        ensures { result ≡ Spec.is_told_refusal self.now }
    {
        matches!(self, Told::Refused(_))
    }
}

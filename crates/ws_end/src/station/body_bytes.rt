//! The bytes of an open record, kept until it ends.
ghost use Rattle.std.specs.Prelude.{◌≡◌, []};

use crate::station::body::MAX_BODY_BYTES;
use arrayvec::ArrayVec;
use std::marker::Model;
use ws_code::{Keep, Kept};

/// The bytes of an open record's body, as they come. There is room for all that a record can hold.
#[derive(Drop)]
pub struct BodyBytes {
    bytes: ArrayVec<u8, MAX_BODY_BYTES>,
}

impl Model for BodyBytes {
    ghost use Rattle.std.specs.Prelude.{List, ℕ};

    ghost Value = { List ℕ };

    ghost view = { λ b. b.bytes.items };
}

impl BodyBytes {
    /// No byte.
    pub fn new() -> Self
        ensures { result ≡ [] }
    {
        let bytes = ArrayVec::new();
        BodyBytes { bytes }
    }

    /// The bytes in order.
    pub fn as_slice(&self) -> &[u8]
        ensures { result.now ≡ self.now }
    {
        self.bytes.as_slice()
    }

    /// Forgets them.
    pub fn clear(&mut self)
        ensures { self.new ≡ [] }
    {
        self.bytes.clear();
    }
}

/// The elements aren't kept: they are read again once the record is whole.
impl<U: Drop> Keep<U> for BodyBytes {
    ghost use Rattle.ws_end.specs.station.StationReacting.{body_keeper};

    ghost keeper = { body_keeper };

    fn keep(&mut self, _unit: U) -> Kept {
        Kept::GoOn
    }

    fn took(&mut self, values: &[u8]) {
        let _fits = self.bytes.try_extend_from_slice(values).is_ok();
    }
}

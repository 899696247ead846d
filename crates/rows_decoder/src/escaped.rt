//! A small body of another grammar than the profile's, for records over any body.

ghost use Rattle.std.specs.Prelude.{[]};
ghost use Rattle.rows_decoder.specs.Escaped.{escaped_rules, escaped_nonempty, escaped_prefix_free, escaped_begins, escaped_can_end};

use arrayvec::ArrayVec;
use ws_code::{Body, Code, Push, Reason};

/// A body for tests: bytes, the first of which must be 04, an escape. After an escape it may not end. A place is
/// the byte before it, if there is one.
#[derive(Drop)]
pub(crate) struct Escaped {
    before: Option<u8>,
}

impl Code for Escaped {
    type Unit = u8;

    type Place = Option<u8>;

    ghost rules = { escaped_rules };

    ghost place = { λ e. e.before };

    ghost unfinished = { λ _. [] };

    ghost nonempty = { escaped_nonempty };

    ghost bytes = { λ b h. (h, tt) };

    ghost prefix_free = { escaped_prefix_free };

    ghost begins = { escaped_begins };

    fn first() -> Option<u8> {
        None
    }

    fn after(unit: &u8) -> Option<u8> {
        Some(*unit)
    }

    fn start(at: Option<u8>) -> Self {
        Escaped { before: at }
    }

    fn push(&mut self, byte: u8) -> Push<u8> {
        if self.before.is_none() && byte != 0x04 {
            Push::Bad(Reason::NoEscape)
        } else {
            Push::Unit(byte)
        }
    }

    fn known(unit: &u8) {
        let _read = *unit;
    }
}

impl Body for Escaped {
    ghost can_end = { escaped_can_end };

    fn may_follow(place: Option<u8>, unit: &u8) -> bool {
        place.is_some() || *unit == 0x04
    }

    fn may_end(place: Option<u8>) -> bool {
        match place {
            Some(before) => before != 0x04,
            None => true,
        }
    }

    fn spell(unit: &u8, into: &mut ArrayVec<u8, 32>) {
        into.clear();
        into.push(*unit);
    }
}

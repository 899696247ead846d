//! Bodies of plain bytes, for a stream whose records are looked into no further.

ghost use Rattle.std.specs.Prelude.{[], refl};
ghost use Rattle.ws_record.specs.RawBody.{raw_rules, raw_nonempty, raw_prefix_free, raw_begins};

use arrayvec::ArrayVec;
use ws_code::{Body, Code, Push};

/// A body of plain bytes: every byte is a unit, and every list of them may end.
#[derive(Drop)]
pub struct RawBody;

impl Code for RawBody {
    type Unit = u8;

    type Place = ();

    ghost rules = { raw_rules };

    ghost place = { λ _. tt };

    ghost unfinished = { λ _. [] };

    ghost nonempty = { raw_nonempty };

    ghost bytes = { λ b h. (h, tt) };

    ghost prefix_free = { raw_prefix_free };

    ghost begins = { raw_begins };

    fn first() -> () {
        ()
    }

    fn after(_unit: &u8) -> () {
        ()
    }

    fn start(_at: ()) -> Self {
        RawBody
    }

    fn push(&mut self, byte: u8) -> Push<u8> {
        Push::Unit(byte)
    }

    fn known(unit: &u8) {
        let _read = *unit;
    }
}

impl Body for RawBody {
    ghost can_end = { λ _. ([], tt, refl) };

    fn may_follow(_place: (), _unit: &u8) -> bool {
        true
    }

    fn may_end(_place: ()) -> bool {
        true
    }

    fn spell(unit: &u8, into: &mut ArrayVec<u8, 32>) {
        into.clear();
        into.push(*unit);
    }
}

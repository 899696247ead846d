//! Codes whose lists of units are the bodies of records.
ghost use Rattle.std.specs.Prelude.{◌≡◌, true, List};
ghost use Rattle.ws_code.specs.Code.{Rules, IsChain, place_after};

use crate::Code;
use arrayvec::ArrayVec;

/// A code whose lists of units are bodies of records.
pub trait Body: Code {
    /// Whether the unit may stand at the place.
    fn may_follow(place: Self::Place, unit: &Self::Unit) -> bool
        ensures { result ≡ Self.rules.may_follow place unit.now };

    /// Whether a list of units may end where the next would stand at the place.
    fn may_end(place: Self::Place) -> bool
        ensures { result ≡ Self.rules.may_end place };

    /// Replaces what the list held by the unit's spelling.
    fn spell(unit: &Self::Unit, into: &mut ArrayVec<u8, 32>)
        ensures { into.new.items ≡ Self.rules.spelling unit.now };

    // From every place some list of units leads to one that may end.
    ghost can_end: { (place : Self.Place) → (units : List Self.Unit)
        × IsChain Self.rules place units
        × (Self.rules.may_end (place_after Self.rules place units) ≡ true) };
}

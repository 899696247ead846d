//! Codes that are read byte by byte, one unit after another.
ghost use Rattle.std.specs.Prelude.{◌≡◌, ◌≢◌, ◌<◌, ◌≤◌, [], List, ℕ, true, false, length, take};
ghost use Rattle.ws_code.specs.Code.{Rules, IsUnfinished, IsPrefixFree, AreBytes};
ghost use Rattle.ws_code.specs.Run.{IsAt, IsRunOfValues, intake, reading, with_keep};
ghost use Rattle.ws_code.specs.Step.{IsStep};
ghost use Rattle.ws_code.specs.declared.run.End.{End as AnEnd};

use crate::{End, Keep, Kept, Reason, Run, Standing};

/// What a machine answers to a byte.
#[derive(Drop)]
pub enum Push<U> {
    /// The bytes so far begin some unit's spelling.
    More,
    /// They are the spelling of this unit.
    Unit(U),
    /// They begin no unit's spelling.
    Bad(Reason),
}

/// A code that is read byte by byte. A machine is seen as its place and its unfinished spelling.
///
/// The units that may stand at one place form a prefix code: no spelling is a prefix of another.
pub trait Code: Drop {
    /// What is read.
    type Unit: Drop;
    /// Where a unit stands. It says which units may stand there.
    type Place: Copy;

    ghost rules: { Rules Self.Place Self.Unit };

    ghost place: { Self → Self.Place };

    ghost unfinished: { Self → List ℕ };

    /// Where a list of units begins.
    fn first() -> Self::Place
        ensures { result ≡ rules.first };

    /// Where the unit after this one stands.
    fn after(unit: &Self::Unit) -> Self::Place
        ensures { result ≡ rules.after unit.now };

    /// A new machine, which has taken no byte.
    fn start(at: Self::Place) -> Self
        ensures place { place result ≡ at }
        ensures fresh { unfinished result ≡ [] };

    /// Begins anew at the place, as a new machine does. A machine that is costly to make does better in place.
    fn restart(&mut self, at: Self::Place)
        ensures place { place self.new ≡ at }
        ensures fresh { unfinished self.new ≡ [] }
    {
        *self = Self::start(at);
    }

    /// Takes a byte. After `Unit` or `Bad` a new machine is started, or this one is started anew.
    fn push(&mut self, byte: u8) -> Push<Self::Unit>
        requires { IsUnfinished rules (place self.old) (unfinished self.old) }
        ensures { IsStep rules (reading (place self.old) (unfinished self.old)) byte
            (reading (place self.new) (unfinished self.new)) result };

    /// Takes values up to one that is refused, or with which the keep has enough or wants memory. It hands each unit
    /// that is complete to the keep, and begins anew behind it.
    fn run<K: Keep<Self::Unit>>(
        &mut self,
        at: &mut Standing<Self::Place>,
        values: &[u8],
        keep: &mut K,
    ) -> Run
        requires { IsAt rules (reading (place self.old) (unfinished self.old)) at.old }
        ensures used { result.used ≤ length values.now }
        ensures whole { result.end ≡ AnEnd.More → result.used ≡ length values.now }
        ensures run { IsRunOfValues (intake rules K.keeper)
            (with_keep (reading (place self.old) (unfinished self.old)) keep.old)
            (take result.used values.now)
            (with_keep (reading (place self.new) (unfinished self.new)) keep.new) at.new
            result.end }
    {
        // A code that is read fast writes its own: its units go to the keep without an answer each.
        for (index, value) in values.iter().enumerate() {
            match self.push(*value) {
                Push::More => at.is_inside = true,
                Push::Unit(unit) => {
                    let place = Self::after(&unit);
                    *at = Standing {
                        place,
                        is_inside: false,
                    };
                    self.restart(place);
                    match keep.keep(unit) {
                        Kept::GoOn => {}
                        Kept::Enough => {
                            return Run {
                                used: index + 1,
                                end: End::Enough,
                            };
                        }
                        Kept::NoMemory => {
                            return Run {
                                used: index + 1,
                                end: End::NoMemory,
                            };
                        }
                    }
                }
                Push::Bad(reason) => {
                    return Run {
                        used: index + 1,
                        end: End::Bad(reason),
                    };
                }
            }
        }
        Run {
            used: values.len(),
            end: End::More,
        }
    }

    /// Has no effect, and tells that a unit in hand is in the code's range.
    fn known(unit: &Self::Unit)
        ensures { rules.is_unit unit.now };

    // No spelling is empty, and each is of bytes.
    ghost nonempty: { (unit : Self.Unit) → rules.is_unit unit → rules.spelling unit ≢ [] };

    ghost bytes: { (unit : Self.Unit) → rules.is_unit unit → AreBytes (rules.spelling unit) };
    // At one place no spelling is a prefix of another, and some unit may stand there.
    ghost prefix_free: { IsPrefixFree rules };

    ghost begins: { (place : Self.Place) → IsUnfinished rules place [] };
}

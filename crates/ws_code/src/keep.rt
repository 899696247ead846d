//! Where the units go that a machine reads: into a list, a slot, or nowhere.
ghost use Rattle.std.specs.Prelude.{◌++◌, List, ℕ};
ghost use Rattle.ws_code.specs.Keep.{Keeper, KeepsOne, list_keeper, nothing_keeper, slot_keeper};

/// What became of a unit.
#[derive(Clone, Copy)]
pub enum Kept {
    /// It is kept, and so will the next one be.
    GoOn,
    /// It is kept, and is to be fetched before the next one comes.
    Enough,
    /// It isn't kept: a growth was refused.
    NoMemory,
}

// It decides what a decoder costs: with a slot units come one by one, a list grows by all of them,
// and with none kept no memory is asked for.
/// Where the units go that a machine reads, and the values that they were read from.
pub trait Keep<U>: Drop {
    // Which units it holds, and what it may answer to one.
    ghost keeper: { Keeper U Self };

    /// Takes a unit. With `NoMemory` it holds what it held.
    fn keep(&mut self, unit: U) -> Kept
        ensures kept { KeepsOne keeper self.old self.new unit result }
        ensures answer { keeper.may_answer result };

    /// Is told of the values that a body has taken, behind the units that are complete with them. A keep of units alone
    /// has no use for them.
    fn took(&mut self, values: &[u8])
        ensures { (units : List U) (told : List ℕ) → keeper.holds self.old units told
            → keeper.holds self.new units (told ++ values.now) };
}

// Room for so many units comes with the first one, so that short records don't grow their list unit by unit.
const FIRST_UNITS: usize = 8;

/// A list keeps all units.
impl<U: Drop> Keep<U> for Vec<U> {
    ghost keeper = { list_keeper (λ vec. vec.items) };

    fn keep(&mut self, unit: U) -> Kept {
        if self.capacity() == 0 && self.reserve(FIRST_UNITS).is_err() {
            return Kept::NoMemory;
        }
        if self.push(unit).is_err() {
            return Kept::NoMemory;
        }
        Kept::GoOn
    }

    fn took(&mut self, _values: &[u8]) {}
}

/// A slot keeps the last unit, and has enough with each.
impl<U: Drop> Keep<U> for Option<U> {
    ghost keeper = { slot_keeper };

    fn keep(&mut self, unit: U) -> Kept {
        *self = Some(unit);
        Kept::Enough
    }

    fn took(&mut self, _values: &[u8]) {}
}

/// Keeps nothing, and so allocates no memory.
#[derive(Clone, Copy)]
pub struct Nothing;

impl<U: Drop> Keep<U> for Nothing {
    ghost keeper = { nothing_keeper };

    fn keep(&mut self, _unit: U) -> Kept {
        Kept::GoOn
    }

    fn took(&mut self, _values: &[u8]) {}
}

//! A box as C holds it: an untyped pointer, with a right that only contracts see.
ghost use Rattle.std.specs.Prelude.{◌≡◌, Option, Some, None, IsSome};
ghost use Rattle.std.specs.Coded.{coded_option};
ghost use Rattle.ws_c.specs.declared.machine.Machine.{Machine};
ghost use Rattle.ws_c.specs.contracts.machine.Machine as machine;
ghost use Rattle.ws_c.specs.Owned.{owned};

use crate::Machine;
use crate::loose::Loose;
use std::alloc::Global;
use std::marker::Model;

/// The pointer of a box, or of nothing. To drop one forgets the box.
#[repr(C)]
#[derive(Drop)]
pub struct Owned {
    at: *mut u8,
    alloc: Global,
    pub ghost value: { Option Machine } by { coded_option (machine.the_row).coded },
}

impl Model for Owned {
    ghost also_owns = { λ p. owned p.alloc machine.the_row p.at p.value };
}

impl Owned {
    /// The pointer of a box that was taken apart.
    pub(crate) fn of(loose: Loose<Machine, Global>) -> Self
        ensures { result.value ≡ Some loose.value }
    {
        let Loose { ptr, alloc } = loose;
        let at = ptr as *mut u8;
        Owned { at, alloc }
    }

    /// The box taken apart again.
    pub(crate) fn into_loose(self) -> Loose<Machine, Global>
        requires { IsSome self.value }
        ensures { Some result.value ≡ self.value }
    {
        let Owned { at, alloc } = self;
        let ptr = at as *mut Machine;
        Loose { ptr, alloc }
    }

    /// The pointer of nothing.
    pub(crate) fn empty(alloc: Global) -> Self
        ensures { result.value ≡ None }
    {
        let at = std::ptr::null_mut();
        Owned { at, alloc }
    }
}

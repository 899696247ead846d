//! What C holds of a machine.
ghost use Rattle.std.specs.Prelude.{◌≡◌, Some, None, is_some, IfSome, IfNone};
ghost use Rattle.ws_c.specs.Held.{IsHeld};

use crate::loose::Loose;
use crate::owned::Owned;
use crate::{Machine, Status};
use std::alloc::Global;
use std::mem::replace;

/// A handle: C makes it of zero bytes, and gives it to calls alone.
#[repr(C)]
#[derive(Drop)]
pub struct Handle {
    /// What it holds.
    pub owned: Owned,
    /// Whether it holds something.
    pub is_open: bool,
    pub ghost agrees: { is_some owned.value ≡ is_open },
}

impl Handle {
    /// A handle that holds nothing.
    pub(crate) fn empty(alloc: Global) -> Self
        ensures { result.owned.value ≡ None }
    {
        let owned = Owned::empty(alloc);
        Handle {
            owned,
            is_open: false,
        }
    }

    /// Takes out what it holds.
    pub(crate) fn take(&mut self, alloc: Global) -> Option<Box<Machine, Global>>
        ensures some { IfSome result (λ held. self.old.owned.value ≡ Some held.value) }
        ensures none { IfNone result (self.old.owned.value ≡ None) }
        ensures after { self.new.owned.value ≡ None }
    {
        let old = replace(self, Handle::empty(alloc));
        let Handle { owned, is_open } = old;
        if is_open {
            Some(owned.into_loose().into_box())
        } else {
            None
        }
    }

    /// Holds this from now on. What it held before is forgotten, so it is to hold nothing.
    pub(crate) fn put(&mut self, held: Box<Machine, Global>)
        ensures { self.new.owned.value ≡ Some held.value }
    {
        let owned = Owned::of(Loose::of(held));
        *self = Handle {
            owned,
            is_open: true,
        };
    }

    /// Holds this in a box from now on, where there is memory for one. It is to hold nothing before.
    pub(crate) fn hold(&mut self, alloc: Global, machine: Machine) -> Status
        requires { self.old.owned.value ≡ None }
        ensures { IsHeld machine self.new.owned.value result }
    {
        match Box::new(alloc, machine) {
            Ok(held) => {
                self.put(held);
                Status::Done
            }
            Err(_) => Status::NoMemory,
        }
    }
}

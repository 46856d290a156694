//! What is being simplified, behind a pointer that crosses to C.
ghost use Rattle.std.specs.Prelude.{◌≡◌, Some, None, Option, IsSome};
ghost use Rattle.std.specs.contracts.impls.GlobalAllocator.TheImpl.{ghosts};
ghost use Rattle.pm_commands.specs.contracts.stepwise.Simplifying.{the_row};
ghost use Rattle.pm_commands.specs.Stepwise.{SteppedRun};
ghost use Rattle.vdpm_c.specs.Held.{held};

use crate::loose::Loose;
use pm_commands::Simplifying;
use std::alloc::Global;
use std::marker::Model;
use std::ptr::null_mut;

/// Where what is being simplified stands, if anything is. The pointer is one to bytes, since no
/// other may cross to C; what is being simplified is what it owns.
#[repr(C)]
#[derive(Drop)]
pub struct RunSlot {
    at: *mut u8,
    alloc: Global,
    pub ghost value: { Option SteppedRun },
}

impl Model for RunSlot {
    ghost also_owns = { λ s. held (ghosts.dealloc_token s.alloc) the_row s.at s.value };
}

impl RunSlot {
    /// A slot with nothing in it.
    pub(crate) fn empty(alloc: Global) -> RunSlot
        ensures { result.value ≡ None }
    {
        RunSlot {
            at: null_mut(),
            alloc,
        }
    }

    /// A slot with what is being simplified.
    pub(crate) fn of(loose: Loose<Simplifying, Global>) -> RunSlot
        ensures { result.value ≡ Some loose.value }
    {
        let Loose { at, alloc } = loose;
        RunSlot {
            at: at as *mut u8,
            alloc,
        }
    }

    /// What is being simplified, of which the slot has some.
    pub(crate) fn into_loose(self) -> Loose<Simplifying, Global>
        requires { IsSome self.value }
        ensures { self.value ≡ Some result.value }
    {
        let RunSlot { at, alloc } = self;
        Loose {
            at: at as *mut Simplifying,
            alloc,
        }
    }
}

//! What was made, behind a pointer that crosses to C.
ghost use Rattle.std.specs.Prelude.{◌≡◌, Some, None, Option, IsSome};
ghost use Rattle.std.specs.contracts.impls.GlobalAllocator.TheImpl.{ghosts};
ghost use Rattle.pm_making.specs.contracts.made.Made.{the_row};
ghost use Rattle.pm_making.specs.Making.{MadeText};
ghost use Rattle.vdpm_c.specs.Held.{held};

use crate::loose::Loose;
use pm_making::Made;
use std::alloc::Global;
use std::marker::Model;
use std::ptr::null_mut;

/// Where what was made stands, if anything was. The pointer is one to bytes, since no other may
/// cross to C; what was made is what it owns.
#[repr(C)]
#[derive(Drop)]
pub struct MadeSlot {
    at: *mut u8,
    alloc: Global,
    pub ghost value: { Option MadeText },
}

impl Model for MadeSlot {
    ghost also_owns = { λ s. held (ghosts.dealloc_token s.alloc) the_row s.at s.value };
}

impl MadeSlot {
    /// A slot with nothing in it.
    pub(crate) fn empty(alloc: Global) -> MadeSlot
        ensures { result.value ≡ None }
    {
        MadeSlot {
            at: null_mut(),
            alloc,
        }
    }

    /// A slot with what was made.
    pub(crate) fn of(loose: Loose<Made, Global>) -> MadeSlot
        ensures { result.value ≡ Some loose.value }
    {
        let Loose { at, alloc } = loose;
        MadeSlot {
            at: at as *mut u8,
            alloc,
        }
    }

    /// What was made, of which the slot has some.
    pub(crate) fn into_loose(self) -> Loose<Made, Global>
        requires { IsSome self.value }
        ensures { self.value ≡ Some result.value }
    {
        let MadeSlot { at, alloc } = self;
        Loose {
            at: at as *mut Made,
            alloc,
        }
    }
}

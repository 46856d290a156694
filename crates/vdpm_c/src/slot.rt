//! A viewer behind a pointer that crosses to C.
ghost use Rattle.std.specs.Prelude.{◌≡◌, Some, None, Option, IsSome};
ghost use Rattle.std.specs.contracts.impls.GlobalAllocator.TheImpl.{ghosts};
ghost use Rattle.pm_viewer.specs.contracts.viewer.Viewer.{the_row};
ghost use Rattle.pm_viewer.specs.Viewing.{Viewed};
ghost use Rattle.vdpm_c.specs.Held.{held};

use crate::loose::Loose;
use pm_viewer::Viewer;
use std::alloc::Global;
use std::marker::Model;
use std::ptr::null_mut;

/// Where a viewer stands, if one does. The pointer is one to bytes, since no other may cross to C;
/// a viewer is what it owns.
#[repr(C)]
#[derive(Drop)]
pub struct Slot {
    at: *mut u8,
    alloc: Global,
    pub ghost value: { Option Viewed },
}

impl Model for Slot {
    ghost also_owns = { λ s. held (ghosts.dealloc_token s.alloc) the_row s.at s.value };
}

impl Slot {
    /// A slot with nothing in it.
    pub(crate) fn empty(alloc: Global) -> Slot
        ensures { result.value ≡ None }
    {
        Slot {
            at: null_mut(),
            alloc,
        }
    }

    /// A slot with this viewer.
    pub(crate) fn of(loose: Loose<Viewer, Global>) -> Slot
        ensures { result.value ≡ Some loose.value }
    {
        let Loose { at, alloc } = loose;
        Slot {
            at: at as *mut u8,
            alloc,
        }
    }

    /// The viewer in the slot, which has one.
    pub(crate) fn into_loose(self) -> Loose<Viewer, Global>
        requires { IsSome self.value }
        ensures { self.value ≡ Some result.value }
    {
        let Slot { at, alloc } = self;
        Loose {
            at: at as *mut Viewer,
            alloc,
        }
    }
}

//! The slots of a renderer's buffer, behind a pointer that crosses to C.
ghost use Rattle.std.specs.Prelude.{◌≡◌, Some, None, Option, IsSome};
ghost use Rattle.std.specs.contracts.impls.GlobalAllocator.TheImpl.{ghosts};
ghost use Rattle.pm_buffers.specs.contracts.slots.Slots.{the_row};
ghost use Rattle.pm_buffers.specs.Buffers.{Buffer};
ghost use Rattle.vdpm_c.specs.Held.{held};

use crate::loose::Loose;
use pm_buffers::Slots;
use std::alloc::Global;
use std::marker::Model;
use std::ptr::null_mut;

/// Where the slots of a buffer stand, if they do. The pointer is one to bytes, since no other may
/// cross to C; the slots are what it owns.
#[repr(C)]
#[derive(Drop)]
pub struct BufferSlot {
    at: *mut u8,
    alloc: Global,
    pub ghost value: { Option Buffer },
}

impl Model for BufferSlot {
    ghost also_owns = { λ s. held (ghosts.dealloc_token s.alloc) the_row s.at s.value };
}

impl BufferSlot {
    /// A slot with nothing in it.
    pub(crate) fn empty(alloc: Global) -> BufferSlot
        ensures { result.value ≡ None }
    {
        BufferSlot {
            at: null_mut(),
            alloc,
        }
    }

    /// A slot with the slots of this buffer.
    pub(crate) fn of(loose: Loose<Slots, Global>) -> BufferSlot
        ensures { result.value ≡ Some loose.value }
    {
        let Loose { at, alloc } = loose;
        BufferSlot {
            at: at as *mut u8,
            alloc,
        }
    }

    /// The slots of the buffer, which there are.
    pub(crate) fn into_loose(self) -> Loose<Slots, Global>
        requires { IsSome self.value }
        ensures { self.value ≡ Some result.value }
    {
        let BufferSlot { at, alloc } = self;
        Loose {
            at: at as *mut Slots,
            alloc,
        }
    }
}

//! Taking what a handle has out of it, and putting it back.
ghost use Rattle.std.specs.Prelude.{◌≡◌, Some, None, IsSome};
ghost use Rattle.vdpm_c.specs.Border.{Has};
ghost use Rattle.vdpm_c.specs.Making.{HasMade};
ghost use Rattle.vdpm_c.specs.Stepwise.{HasRun};
ghost use Rattle.vdpm_c.specs.Buffering.{HasBuffer};

use crate::buffer_slot::BufferSlot;
use crate::loose::Loose;
use crate::made_slot::MadeSlot;
use crate::run_slot::RunSlot;
use crate::slot::Slot;
use crate::tables::{BufferHandle, Handle, MadeHandle, RunHandle};
use pm_buffers::Slots;
use pm_commands::Simplifying;
use pm_making::Made;
use pm_viewer::Viewer;
use std::alloc::Global;
use std::mem::replace;

// Takes out what a slot has, and leaves it with nothing.
fn vacate(alloc: Global, slot: &mut Slot) -> Slot
    ensures taken { result.value ≡ slot.old.value }
    ensures empty { slot.new.value ≡ None }
{
    let empty = Slot::empty(alloc);
    replace(slot, empty)
}

// Takes the viewer out of an open handle, which isn't open then.
pub(crate) fn take(alloc: Global, handle: &mut Handle) -> Box<Viewer>
    requires { IsSome handle.old.slot.value }
    ensures viewer { handle.old.slot.value ≡ Some result.value }
    ensures closed { handle.new.open ≡ 0 }
    ensures empty { handle.new.slot.value ≡ None }
{
    handle.open = 0;
    let slot = vacate(alloc, &mut handle.slot);
    let loose = slot.into_loose();
    loose.into_box()
}

// Puts a viewer into a handle, which is open then.
pub(crate) fn put(handle: &mut Handle, viewer: Box<Viewer>)
    ensures { Has handle.new viewer.value }
{
    handle.slot = Slot::of(Loose::of(viewer));
    handle.open = 1;
}

// Takes out what a slot for what was made has, and leaves it with nothing.
fn vacate_made(alloc: Global, slot: &mut MadeSlot) -> MadeSlot
    ensures taken { result.value ≡ slot.old.value }
    ensures empty { slot.new.value ≡ None }
{
    let empty = MadeSlot::empty(alloc);
    replace(slot, empty)
}

// Takes what was made out of an open handle, which isn't open then.
pub(crate) fn take_made(alloc: Global, handle: &mut MadeHandle) -> Box<Made>
    requires { IsSome handle.old.slot.value }
    ensures made { handle.old.slot.value ≡ Some result.value }
    ensures closed { handle.new.open ≡ 0 }
    ensures empty { handle.new.slot.value ≡ None }
{
    handle.open = 0;
    let slot = vacate_made(alloc, &mut handle.slot);
    let loose = slot.into_loose();
    loose.into_box()
}

// Puts what was made into a handle, which is open then.
pub(crate) fn put_made(handle: &mut MadeHandle, it: Box<Made>)
    ensures { HasMade handle.new it.value }
{
    handle.slot = MadeSlot::of(Loose::of(it));
    handle.open = 1;
}

// Takes out what a slot for a buffer has, and leaves it with nothing.
fn vacate_buffer(alloc: Global, slot: &mut BufferSlot) -> BufferSlot
    ensures taken { result.value ≡ slot.old.value }
    ensures empty { slot.new.value ≡ None }
{
    let empty = BufferSlot::empty(alloc);
    replace(slot, empty)
}

// Takes the slots of a buffer out of an open handle, which isn't open then.
pub(crate) fn take_buffer(alloc: Global, handle: &mut BufferHandle) -> Box<Slots>
    requires { IsSome handle.old.slot.value }
    ensures buffer { handle.old.slot.value ≡ Some result.value }
    ensures closed { handle.new.open ≡ 0 }
    ensures empty { handle.new.slot.value ≡ None }
{
    handle.open = 0;
    let slot = vacate_buffer(alloc, &mut handle.slot);
    let loose = slot.into_loose();
    loose.into_box()
}

// Puts the slots of a buffer into a handle, which is open then.
pub(crate) fn put_buffer(handle: &mut BufferHandle, slots: Box<Slots>)
    ensures { HasBuffer handle.new slots.value }
{
    handle.slot = BufferSlot::of(Loose::of(slots));
    handle.open = 1;
}

// Takes out what a slot for what is being simplified has, and leaves it with nothing.
fn vacate_run(alloc: Global, slot: &mut RunSlot) -> RunSlot
    ensures taken { result.value ≡ slot.old.value }
    ensures empty { slot.new.value ≡ None }
{
    let empty = RunSlot::empty(alloc);
    replace(slot, empty)
}

// Takes what is being simplified out of an open handle, which isn't open then.
pub(crate) fn take_run(alloc: Global, handle: &mut RunHandle) -> Box<Simplifying>
    requires { IsSome handle.old.slot.value }
    ensures run { handle.old.slot.value ≡ Some result.value }
    ensures closed { handle.new.open ≡ 0 }
    ensures empty { handle.new.slot.value ≡ None }
{
    handle.open = 0;
    let slot = vacate_run(alloc, &mut handle.slot);
    let loose = slot.into_loose();
    loose.into_box()
}

// Puts what is being simplified into a handle, which is open then.
pub(crate) fn put_run(handle: &mut RunHandle, run: Box<Simplifying>)
    ensures { HasRun handle.new run.value }
{
    handle.slot = RunSlot::of(Loose::of(run));
    handle.open = 1;
}

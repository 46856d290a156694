//! The exported functions of the slots of a renderer's buffer.
ghost use Rattle.std.specs.Prelude.{◌≡◌, ◌≢◌, ◌<◌, ◌≤◌, ◌↔◌, None, length};
ghost use Rattle.pm_buffers.specs.Buffers.{Buffer, empty_buffer};
ghost use Rattle.pm_buffers.specs.Changes.{IsChange, write_count};
ghost use Rattle.vdpm_c.specs.Buffering.{IsReady, HasBuffer, AreSlotsChanged, AreSlotsOf};
ghost use Rattle.vdpm_c.specs.Buffering.{IsSlotOf, sizes_wanted};

use crate::holding::{put_buffer, take_buffer};
use crate::statuses::{DONE, NO_MEMORY, NO_ROOM, NONE, NOT_SO, OUT_OF_RANGE};
use crate::tables::{BufferHandle, SlotSizes};
use pm_buffers::{ChangeFail, Slots};
use std::alloc::Global;

/// Opens the slots of a buffer of which no item is shown.
#[unsafe(no_mangle)]
pub extern "C" fn vdpm_slots_open(alloc: Global, items: u32, handle: &mut BufferHandle) -> u32
    ensures done { result ≡ 0 → HasBuffer handle.new (empty_buffer items) }
    ensures not_so { result ≡ 6 ↔ (handle.old.open ≢ 0) }
    ensures statuses { result ≢ 0 → result ≢ 6 → result ≡ 5 }
    ensures as_before { result ≢ 0 → handle.new ≡ handle.old }
{
    if handle.open != 0 {
        return NOT_SO;
    }
    let Ok(slots) = Slots::new(alloc, items) else {
        return NO_MEMORY;
    };
    let Ok(boxed) = Box::new(alloc, slots) else {
        return NO_MEMORY;
    };
    put_buffer(handle, boxed);
    DONE
}

// Changes what is shown.
fn change(
    slots: &mut Slots,
    gone: &[u32],
    put: &[u32],
    writes: &mut [u32],
    sizes: &mut SlotSizes,
) -> u32
    ensures done { result ≡ 0
        → AreSlotsChanged slots.old gone.now put.now slots.new sizes.new writes.old writes.new }
    ensures out_of_range { result ≡ 2 ↔ ¬ IsChange slots.old.entries gone.now put.now }
    ensures no_room { result ≡ 7 ↔ IsChange slots.old.entries gone.now put.now
        × (length writes.old < write_count slots.old.entries gone.now put.now) }
    ensures wanted { result ≡ 7 → sizes.new ≡ sizes_wanted slots.old gone.now put.now }
    ensures statuses { result ≢ 0 → result ≢ 2 → result ≡ 7 }
    ensures kept { result ≢ 0 → slots.new ≡ slots.old }
    ensures unwritten { result ≢ 0 → writes.new ≡ writes.old }
    ensures untold { result ≡ 2 → sizes.new ≡ sizes.old }
{
    match slots.change(gone, put, writes) {
        Ok(written) => {
            *sizes = SlotSizes {
                written,
                length: slots.len(),
            };
            DONE
        }
        Err(ChangeFail::NoRoom(written)) => {
            *sizes = SlotSizes {
                written,
                length: slots.len(),
            };
            NO_ROOM
        }
        Err(ChangeFail::NotAChange) => OUT_OF_RANGE,
    }
}

/// Changes what is shown, and writes which slots are to be written.
#[unsafe(no_mangle)]
pub extern "C" fn vdpm_slots_change(
    alloc: Global,
    handle: &mut BufferHandle,
    gone: &[u32],
    put: &[u32],
    writes: &mut [u32],
    sizes: &mut SlotSizes,
) -> u32
    requires { IsReady handle.old }
    ensures done { (b : Buffer) → HasBuffer handle.old b → result ≡ 0 → (c : Buffer)
        × HasBuffer handle.new c
        × AreSlotsChanged b gone.now put.now c sizes.new writes.old writes.new }
    ensures out_of_range { (b : Buffer) → HasBuffer handle.old b
        → result ≡ 2 ↔ ¬ IsChange b.entries gone.now put.now }
    ensures no_room { (b : Buffer) → HasBuffer handle.old b
        → result ≡ 7 ↔ IsChange b.entries gone.now put.now
        × (length writes.old < write_count b.entries gone.now put.now) }
    ensures wanted { (b : Buffer) → HasBuffer handle.old b
        → result ≡ 7 → sizes.new ≡ sizes_wanted b gone.now put.now }
    ensures statuses { (b : Buffer) → HasBuffer handle.old b
        → result ≢ 0 → result ≢ 2 → result ≡ 7 }
    ensures kept { (b : Buffer) → HasBuffer handle.old b → result ≢ 0 → HasBuffer handle.new b }
    ensures unwritten { result ≢ 0 → writes.new ≡ writes.old }
    ensures untold { result ≢ 0 → result ≢ 7 → sizes.new ≡ sizes.old }
    ensures not_so { handle.old.open ≢ 1 → (result ≡ 6) × (handle.new ≡ handle.old) }
{
    if handle.open != 1 {
        return NOT_SO;
    }
    let mut slots = take_buffer(alloc, handle);
    let status = change(&mut slots, gone, put, writes, sizes);
    put_buffer(handle, slots);
    status
}

// The slot of an item, or `NONE`.
fn slot_told(slots: &Slots, item: u32) -> u32
    ensures { IsSlotOf slots.now.entries item result }
{
    match slots.slot_of(item) {
        Some(slot) => slot,
        None => NONE,
    }
}

// Writes the slots of the items, for which there is room.
fn write_slots(slots: &Slots, items: &[u32], out: &mut [u32])
    requires { length items.now ≤ length out.old }
    ensures { AreSlotsOf slots.now.entries items.now out.old out.new }
{
    for place in 0..items.len() {
        out[place] = slot_told(slots, items[place]);
    }
}

/// Writes the slot of each item.
#[unsafe(no_mangle)]
pub extern "C" fn vdpm_slots_of(
    alloc: Global,
    handle: &mut BufferHandle,
    items: &[u32],
    out: &mut [u32],
) -> u32
    requires { IsReady handle.old }
    ensures told { (b : Buffer) → HasBuffer handle.old b → length items.now ≤ length out.old
        → (result ≡ 0) × AreSlotsOf b.entries items.now out.old out.new × HasBuffer handle.new b }
    ensures no_room { (b : Buffer) → HasBuffer handle.old b
        → (length items.now ≤ length out.old → ⊥)
        → (result ≡ 7) × (out.new ≡ out.old) × HasBuffer handle.new b }
    ensures not_so { handle.old.open ≢ 1 → (result ≡ 6) × (handle.new ≡ handle.old)
        × (out.new ≡ out.old) }
{
    if handle.open != 1 {
        return NOT_SO;
    }
    if items.len() > out.len() {
        return NO_ROOM;
    }
    let slots = take_buffer(alloc, handle);
    write_slots(&slots, items, out);
    put_buffer(handle, slots);
    DONE
}

/// Closes the slots of a buffer. A handle that isn't open stays as it is.
#[unsafe(no_mangle)]
pub extern "C" fn vdpm_slots_close(alloc: Global, handle: &mut BufferHandle)
    requires { IsReady handle.old }
    ensures closed { handle.old.open ≡ 1 → (handle.new.open ≡ 0) × (handle.new.slot.value ≡ None) }
    ensures not_so { handle.old.open ≢ 1 → handle.new ≡ handle.old }
{
    if handle.open == 1 {
        let _ = take_buffer(alloc, handle);
    }
}

//! The slot of each item, and the item of each slot.
ghost use Rattle.std.specs.Prelude.{◌≡◌, ℕ, ◌+◌, ◌<◌, ◌≤◌, length, max, slice_set, vec_len};
ghost use Rattle.std.specs.Prelude.{true, false, IfOk, IfSome, IfNone};
ghost use Rattle.pm_buffers.specs.Buffers.{at, Shows, StandsIn, IsBuffer, empty_buffer};
ghost use Rattle.pm_buffers.specs.Buffers.{shown_count};

use std::alloc::{AllocError, Global};
use std::marker::Model;

/// No item, in a slot that is empty.
pub const EMPTY: u32 = u32::MAX;

// Clauses cite the number by its name, so its value is said here.
const _: () = prove!(EMPTY == 4_294_967_295);

/// The tables behind a buffer. Contracts see the buffer.
#[derive(Drop)]
pub(crate) struct Tables {
    // The slot of each item, or `EMPTY`.
    slots: Vec<u32>,
    // The item of each slot, or `EMPTY`, for as many slots as there are items.
    entries: Vec<u32>,
    // How many slots were taken once: the first ones.
    len: u32,
    // The empty slots among those: the first `hole_count` numbers, the next to be taken last.
    holes: Vec<u32>,
    hole_count: u32,
}

impl Model for Tables {
    ghost use Rattle.pm_buffers.specs.Buffers.{Buffer};
    ghost use Rattle.pm_buffers.specs.Tables.{AreTables};

    ghost Value = { Buffer };

    ghost view = { λ t. record { entries = t.entries.items; len = t.len } };

    ghost invariant = { λ t. AreTables t.slots.items t.entries.items t.len t.holes.items
        t.hole_count };
}

impl Tables {
    /// None shown.
    pub(crate) fn new(alloc: Global, items: u32) -> Result<Tables, AllocError>
        ensures { IfOk result (λ t. t ≡ empty_buffer items) }
    {
        let slots = vec![in alloc; EMPTY; items as usize]?;
        let entries = vec![in alloc; EMPTY; items as usize]?;
        let holes = vec![in alloc; EMPTY; items as usize]?;
        Ok(Tables {
            slots,
            entries,
            len: 0,
            holes,
            hole_count: 0,
        })
    }

    /// How many slots the buffer has.
    pub(crate) fn len(&self) -> u32
        ensures { result ≡ self.now.len }
    {
        self.len
    }

    /// How many items the buffer is for.
    pub(crate) fn items(&self) -> usize
        ensures { result ≡ length self.now.entries }
    {
        self.entries.len()
    }

    /// The slot of an item that is shown.
    pub(crate) fn slot_of(&self, item: u32) -> Option<u32>
        ensures some { IfSome result (λ slot. StandsIn self.now.entries slot item) }
        ensures none { IfNone result (¬ Shows self.now.entries item) }
    {
        if item as usize >= self.slots.len() {
            return None;
        }
        let slot = self.slots[item as usize];
        if slot == EMPTY { None } else { Some(slot) }
    }

    /// Whether an item is shown.
    pub(crate) fn shows(&self, item: u32) -> bool
        ensures yes { result ≡ true → Shows self.now.entries item }
        ensures no { result ≡ false → ¬ Shows self.now.entries item }
    {
        self.slot_of(item).is_some()
    }

    /// The item that stands in a slot.
    pub(crate) fn item_in(&self, slot: u32) -> Option<u32>
        ensures some { IfSome result (λ item. StandsIn self.now.entries slot item) }
        ensures none { IfNone result (at self.now.entries slot ≡ EMPTY) }
    {
        if slot as usize >= self.entries.len() {
            return None;
        }
        let item = self.entries[slot as usize];
        if item == EMPTY { None } else { Some(item) }
    }

    /// An item comes into the slot of one that leaves, which is the result.
    pub(crate) fn replace(&mut self, gone: u32, new: u32) -> u32
        requires gone { Shows self.old.entries gone }
        requires new { new < length self.old.entries }
        requires hidden { ¬ Shows self.old.entries new }
        ensures slot { at self.old.entries result ≡ gone }
        ensures within { result < length self.old.entries }
        ensures entries { self.new.entries ≡ slice_set self.old.entries result new }
        ensures len { self.new.len ≡ self.old.len }
        ensures count { shown_count self.new.entries ≡ shown_count self.old.entries }
        ensures sound { IsBuffer self.new }
    {
        let slot = vacate(&mut self.slots, gone);
        pair(&mut self.slots, &mut self.entries, new, slot);
        slot
    }

    /// An item leaves its slot empty, which is the result.
    pub(crate) fn leave(&mut self, gone: u32) -> u32
        requires { Shows self.old.entries gone }
        ensures slot { at self.old.entries result ≡ gone }
        ensures within { result < length self.old.entries }
        ensures entries { self.new.entries ≡ slice_set self.old.entries result EMPTY }
        ensures len { self.new.len ≡ self.old.len }
        ensures count { shown_count self.new.entries + 1 ≡ shown_count self.old.entries }
        ensures sound { IsBuffer self.new }
    {
        let slot = vacate(&mut self.slots, gone);
        self.entries[slot as usize] = EMPTY;
        self.holes[self.hole_count as usize] = slot;
        self.hole_count += 1;
        slot
    }

    /// An item comes into an empty slot, which is the result.
    pub(crate) fn enter(&mut self, new: u32) -> u32
        requires new { new < length self.old.entries }
        requires hidden { ¬ Shows self.old.entries new }
        ensures slot { at self.old.entries result ≡ EMPTY }
        ensures within { result < length self.old.entries }
        ensures entries { self.new.entries ≡ slice_set self.old.entries result new }
        ensures count { shown_count self.new.entries ≡ shown_count self.old.entries + 1 }
        ensures len { self.new.len ≡ max self.old.len (shown_count self.new.entries) }
        ensures sound { IsBuffer self.new }
    {
        if self.hole_count > 0 {
            self.fill(new)
        } else {
            self.extend(new)
        }
    }

    // An item comes into the hole that was left last.
    fn fill(&mut self, new: u32) -> u32
        requires new { new < length self.old.entries }
        requires hidden { ¬ Shows self.old.entries new }
        requires hole { shown_count self.old.entries < self.old.len }
        ensures slot { at self.old.entries result ≡ EMPTY }
        ensures within { result < length self.old.entries }
        ensures entries { self.new.entries ≡ slice_set self.old.entries result new }
        ensures count { shown_count self.new.entries ≡ shown_count self.old.entries + 1 }
        ensures len { self.new.len ≡ self.old.len }
        ensures sound { IsBuffer self.new }
    {
        self.hole_count -= 1;
        let slot = self.holes[self.hole_count as usize];
        pair(&mut self.slots, &mut self.entries, new, slot);
        slot
    }

    // An item comes into a slot at the end, where there is no hole.
    fn extend(&mut self, new: u32) -> u32
        requires new { new < length self.old.entries }
        requires hidden { ¬ Shows self.old.entries new }
        requires full { shown_count self.old.entries ≡ self.old.len }
        ensures slot { at self.old.entries result ≡ EMPTY }
        ensures within { result < length self.old.entries }
        ensures entries { self.new.entries ≡ slice_set self.old.entries result new }
        ensures count { shown_count self.new.entries ≡ shown_count self.old.entries + 1 }
        ensures len { self.new.len ≡ self.old.len + 1 }
        ensures sound { IsBuffer self.new }
    {
        let slot = self.len;
        self.len += 1;
        pair(&mut self.slots, &mut self.entries, new, slot);
        slot
    }
}

// The slot of an item, which has none then.
fn vacate(slots: &mut Vec<u32>, item: u32) -> u32
    requires { item < vec_len slots.old }
    ensures slot { result ≡ at slots.old.items item }
    ensures slots { slots.new.items ≡ slice_set slots.old.items item EMPTY }
{
    let slot = slots[item as usize];
    slots[item as usize] = EMPTY;
    slot
}

// Lets an item stand in a slot.
fn pair(slots: &mut Vec<u32>, entries: &mut Vec<u32>, item: u32, slot: u32)
    requires item { item < vec_len slots.old }
    requires slot { slot < vec_len entries.old }
    ensures slots { slots.new.items ≡ slice_set slots.old.items item slot }
    ensures entries { entries.new.items ≡ slice_set entries.old.items slot item }
{
    slots[item as usize] = slot;
    entries[slot as usize] = item;
}

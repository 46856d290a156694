//! Items of the live vertices, each in a slot of its own.
ghost use Rattle.std.specs.Prelude.{◌≡◌, ◌≢◌, ◌*◌, ◌<◌, ◌≤◌, ℕ, All, IfOk, length};
ghost use Rattle.std.specs.Prelude.{slice_index_or, slice_set};
ghost use Rattle.pm_base.specs.declared.limits.TheConstants.{MOST_NODES};
ghost use Rattle.pm_slots.specs.Slots.{slot_at, item_at};

use std::alloc::{AllocError, Global};
use std::marker::Model;

/// The answer for want of memory.
pub type OutOfMemory = AllocError;

/// Items by vertex number. Each collapse makes one live vertex of two: so the new vertex takes a
/// slot of theirs, and there are only as many slots as points. Contracts see by vertex number the
/// slot, and by slot the item. A vertex that was merged, or isn't made yet, has a slot too, that
/// of any other.
#[derive(Drop)]
pub struct SlotTable<T> {
    // By vertex number.
    slots: Vec<u32>,
    // By slot.
    items: Vec<T>,
}

impl<T> Model for SlotTable<T> {
    ghost use Rattle.std.specs.Prelude.{◌<◌, All, length};
    ghost use Rattle.pm_slots.specs.Slots.{Slotted};

    ghost Value = { Slotted T };

    ghost view = { λ t. record { slots = t.slots.items; items = t.items.items } };

    ghost invariant = { λ t. All (λ k. k < length t.items.items) t.slots.items };
}

impl<T: Copy> SlotTable<T> {
    /// The items of the first vertices, each in the slot of its number, with room for so many
    /// vertices in all. Only this call takes memory, four bytes a vertex.
    pub fn new(alloc: Global, items: Vec<T>, room: usize) -> Result<SlotTable<T>, OutOfMemory>
        requires least { length items.items ≤ room }
        requires most { room ≤ 2 * length items.items }
        requires few { room ≤ MOST_NODES }
        ensures len { IfOk result (λ t. length t.slots ≡ room) }
        ensures slots { IfOk result (λ t. (v : ℕ) → v < length items.items → slot_at t v ≡ v) }
        ensures items { IfOk result (λ t. (v : ℕ) (none : T) → v < length items.items
            → item_at t v none ≡ slice_index_or items.items v none) }
    {
        let slots = first_slots(alloc, items.len() as u32, room)?;
        Ok(SlotTable { slots, items })
    }

    /// The item of a vertex.
    pub fn get(&self, v: u32) -> &T
        requires { v < length self.now.slots }
        ensures { (none : T) → result.now ≡ item_at self.now v none }
    {
        &self.items[self.slots[v as usize] as usize]
    }

    /// Gives the vertex s the slot of a, and puts an item there in place of what a has.
    pub fn put(&mut self, a: u32, s: u32, item: T)
        requires a_in { a < length self.old.slots }
        requires s_in { s < length self.old.slots }
        ensures slots { self.new.slots ≡ slice_set self.old.slots s (slot_at self.old a) }
        ensures made { (none : T) → item_at self.new s none ≡ item }
        ensures others { (v : ℕ) (none : T) → v ≢ s → slot_at self.old v ≢ slot_at self.old a
            → item_at self.new v none ≡ item_at self.old v none }
    {
        let slot = self.slots[a as usize];
        self.items[slot as usize] = item;
        self.slots[s as usize] = slot;
    }
}

// For each of the first vertices the slot of its number, and any for each that can come later.
fn first_slots(alloc: Global, vertices: u32, room: usize) -> Result<Vec<u32>, OutOfMemory>
    requires least { vertices ≤ room }
    requires most { room ≤ 2 * vertices }
    ensures len { IfOk result (λ slots. length slots.items ≡ room) }
    ensures each { IfOk result (λ slots. (v : ℕ) → v < vertices
        → slice_index_or slots.items v 0 ≡ v) }
    ensures within { IfOk result (λ slots. All (λ k. k < vertices) slots.items) }
{
    let mut slots = vec![in alloc; 0; room]?;
    for v in 0..vertices {
        slots[v as usize] = v;
    }
    Ok(slots)
}

//! The slots of a renderer's buffer.
ghost use Rattle.std.specs.Prelude.{◌≡◌, ◌≤◌, length, max, take, drop, IfOk, IfErr, OnOk, OnErr};
ghost use Rattle.std.specs.Prelude.{IfSome, IfNone, true, false};
ghost use Rattle.pm_buffers.specs.Buffers.{at, StandsIn, Shows, IsBuffer, empty_buffer};
ghost use Rattle.pm_buffers.specs.Buffers.{shown_count};
ghost use Rattle.pm_buffers.specs.Changes.{IsChange, IsRefused, AreChanged, AreKept, AreWritten};
ghost use Rattle.pm_buffers.specs.Changes.{AreInOrder, write_count};

use crate::checks::{are_shown, are_within, write_count};
use crate::marks::are_apart;
use crate::tables::{EMPTY, Tables};
use std::alloc::{AllocError, Global};
use std::marker::Model;

/// The answer for want of memory.
pub type OutOfMemory = AllocError;

/// Why a change isn't made.
#[derive(Clone, Copy, Debug, PartialEq, Eq)]
pub enum ChangeFail {
    /// An item that leaves isn't shown, or one to put is out of range, or one is named twice.
    NotAChange,
    /// So many slots would be written, and there is room for fewer.
    NoRoom(u32),
}

/// Which item stands in which slot of a renderer's buffer. Contracts see the buffer.
#[derive(Drop)]
pub struct Slots {
    tables: Tables,
    // A flag for each item, set only while a list is looked through.
    marks: Vec<bool>,
}

impl Model for Slots {
    ghost use Rattle.std.specs.Prelude.{◌≡◌, length};
    ghost use Rattle.pm_buffers.specs.Buffers.{Buffer, IsBuffer};
    ghost use Rattle.pm_buffers.specs.Tables.{AreClear};

    ghost Value = { Buffer };

    ghost view = { λ s. s.tables };

    ghost invariant = { λ s. (length s.marks.items ≡ length s.tables.entries)
        × AreClear s.marks.items × IsBuffer s.tables };
}

impl Slots {
    /// A buffer for items 0 to `items` - 1, of which none is shown. The only call that takes
    /// memory: 13 bytes an item.
    pub fn new(alloc: Global, items: u32) -> Result<Slots, OutOfMemory>
        ensures made { IfOk result (λ s. s ≡ empty_buffer items) }
    {
        let tables = Tables::new(alloc, items)?;
        let marks = vec![in alloc; false; items as usize]?;
        Ok(Slots { tables, marks })
    }

    /// How many slots the buffer has. O(1).
    pub fn len(&self) -> u32
        ensures len { result ≡ self.now.len }
        ensures sound { IsBuffer self.now }
    {
        self.tables.len()
    }

    /// The slot of an item, if it is shown. O(1).
    pub fn slot_of(&self, item: u32) -> Option<u32>
        ensures some { IfSome result (λ slot. StandsIn self.now.entries slot item) }
        ensures none { IfNone result (¬ Shows self.now.entries item) }
    {
        self.tables.slot_of(item)
    }

    /// The item that stands in a slot, if one does. O(1).
    pub fn item_in(&self, slot: u32) -> Option<u32>
        ensures some { IfSome result (λ item. StandsIn self.now.entries slot item) }
        ensures none { IfNone result (at self.now.entries slot ≡ EMPTY) }
    {
        self.tables.item_in(slot)
    }

    // Whether items can leave and be put so.
    fn is_change(&mut self, gone: &[u32], put: &[u32]) -> bool
        ensures yes { result ≡ true → IsChange self.old.entries gone.now put.now }
        ensures no { result ≡ false → ¬ IsChange self.old.entries gone.now put.now }
        ensures unchanged { self.new ≡ self.old }
        ensures sound { IsBuffer self.old }
    {
        if !are_shown(&self.tables, gone) {
            return false;
        }
        if !are_within(&self.tables, put) {
            return false;
        }
        are_apart(&mut self.marks, gone, put)
    }

    /// The items `gone` leave and the items `put` are shown: those that are already stay in their
    /// slots. Writes the numbers of the slots whose entries differ then or have an item of `put`,
    /// and tells how many they are: first those of `put`, in its order, then those that are left
    /// empty. One that comes takes the slot of the next that leaves; after those, empty slots, the
    /// last to be left first, and then slots at the end. Refused with nothing changed where the
    /// lists are no change, or `writes` has too little room; that of both lists is always enough.
    /// O(`gone` + `put`).
    pub fn change(
        &mut self,
        gone: &[u32],
        put: &[u32],
        writes: &mut [u32],
    ) -> Result<u32, ChangeFail>
        ensures done { OnOk result (IsChange self.old.entries gone.now put.now) }
        ensures refused { IfErr result (λ why. IsRefused self.old.entries gone.now put.now
            (length writes.old) why) }
        ensures fits { IfOk result (λ count. count ≤ length writes.old) }
        ensures unchanged { OnErr result (self.new ≡ self.old) }
        ensures unwritten { OnErr result (writes.new ≡ writes.old) }
        ensures buffer { IsBuffer self.new }
        ensures same_items { length self.new.entries ≡ length self.old.entries }
        ensures same_room { length writes.new ≡ length writes.old }
        ensures behind { IfOk result (λ count. drop count writes.new ≡ drop count writes.old) }
        ensures shown { OnOk result
            (AreChanged self.old.entries gone.now put.now self.new.entries) }
        ensures kept { OnOk result (AreKept self.old.entries gone.now self.new.entries) }
        ensures each { IfOk result (AreInOrder put.now self.new.entries writes.new) }
        ensures written { IfOk result (λ count. AreWritten self.old.entries put.now
            self.new.entries (take count writes.new)) }
        ensures fewest { IfOk result (λ count. count ≡ write_count self.old.entries gone.now
            put.now) }
        ensures grows { OnOk result (self.new.len ≡ max self.old.len
            (shown_count self.new.entries)) }
    {
        if !self.is_change(gone, put) {
            return Err(ChangeFail::NotAChange);
        }
        let count = write_count(&self.tables, gone, put);
        if (count as usize) > writes.len() {
            return Err(ChangeFail::NoRoom(count));
        }
        self.tables.change(gone, put, writes, count as usize);
        Ok(count)
    }
}

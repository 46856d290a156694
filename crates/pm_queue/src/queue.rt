//! A queue of items by their keys.
ghost use Rattle.std.specs.Prelude.{◌≡◌, ◌<◌, ◌≤◌, IfNone, IfOk, IfSome, false, is_some, length};
ghost use Rattle.std.specs.Prelude.{replicate, slice_set};

use super::heap::Heap;
use super::key::Key;
use super::parts::Parts;
use std::alloc::{AllocError, Global};
use std::marker::Model;

/// The answer for want of memory.
pub type OutOfMemory = AllocError;

/// The most items that a queue may be over.
pub const ITEM_LIMIT: u32 = 4_194_304;

// Clauses cite the limit by its name, so this line alone refuses another value.
const _: () = prove!(ITEM_LIMIT == 4_194_304);

/// A map from the items `0..n` to keys, with the least entry at hand.
///
/// Contracts see a list with an optional key for each item.
///
/// Only entries of small cost, the near ones, stand in a heap. When the last of them is gone, a
/// pass over all keys brings some of the others near, and moves the bound between near and far up
/// by an eighth at least.
#[derive(Drop)]
pub struct Queue {
    parts: Parts,
}

impl Model for Queue {
    ghost use Rattle.pm_queue.specs.Entries.{Entries};
    ghost use Rattle.pm_queue.specs.Parts.{IsQueue};
    ghost use Rattle.pm_queue.specs.Tables.{entries_of};

    ghost Value = { Entries };

    ghost view = { λ q. entries_of q.parts.heap };

    ghost invariant = { λ q. IsQueue q.parts };
}

impl Queue {
    ghost use Rattle.pm_queue.specs.Entries.{IsEmpty, IsLeast, key_at};

    /// A queue over the items `0..n`, none of which has a key.
    ///
    /// Takes the memory for all items at once; no other call takes any. O(n) time.
    pub fn new(alloc: Global, n: u32) -> Result<Queue, OutOfMemory>
        requires within_limit { n ≤ ITEM_LIMIT }
        ensures empty { IfOk result (λ entries. entries ≡ replicate n None) }
    {
        let heap = Heap::new(alloc, n)?;
        Ok(Queue {
            parts: Parts {
                heap,
                near: 0,
                bound: 0,
            },
        })
    }

    /// Gives `item` the key, in place of any that it has. O(log n) time, but for the passes that
    /// the type tells of.
    pub fn set(&mut self, item: u32, key: Key)
        requires in_range { item < length self.old }
        ensures replaced { self.new ≡ slice_set self.old item (Some key) }
    {
        self.parts.set(item, key);
    }

    /// Whether `item` has a key. O(1) time.
    pub fn has(&self, item: u32) -> bool
        requires in_range { item < length self.now }
        ensures { result ≡ is_some (key_at self.now item) }
    {
        self.parts.heap.has(item)
    }

    /// Takes the key of `item` away, and says whether it had one. Its time is that of `set`.
    pub fn remove(&mut self, item: u32) -> bool
        requires in_range { item < length self.old }
        ensures had { result ≡ is_some (key_at self.old item) }
        ensures taken { self.new ≡ slice_set self.old item None }
        ensures unchanged { result ≡ false → self.new ≡ self.old }
    {
        let had = self.has(item);
        if had {
            self.parts.remove(item);
        }
        had
    }

    /// The item with the least key, the smaller item on equal keys, and its key. O(1) time.
    pub fn least(&self) -> Option<(u32, Key)>
        ensures some { IfSome result (IsLeast self.now) }
        ensures none { IfNone result (IsEmpty self.now) }
    {
        if self.parts.heap.count() == 0 {
            return None;
        }
        Some(self.parts.heap.first())
    }

    /// The same answer as `least`, and the item loses its key. Its time is that of `set`.
    pub fn take_least(&mut self) -> Option<(u32, Key)>
        ensures some { IfSome result (IsLeast self.old) }
        ensures taken { IfSome result (λ entry. self.new ≡ slice_set self.old entry.0 None) }
        ensures none { IfNone result (IsEmpty self.old) }
        ensures unchanged { IfNone result (self.new ≡ self.old) }
    {
        let (item, key) = self.least()?;
        self.remove(item);
        Some((item, key))
    }
}

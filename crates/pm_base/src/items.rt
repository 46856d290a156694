//! Lists that grow within room that was taken before.
ghost use Rattle.std.specs.Prelude.{◌≡◌, ◌+◌, ◌-◌, ◌≤◌, ◌<◌, [], ◌∷◌, ◌++◌, length, OnOk, OnErr};
ghost use Rattle.std.specs.Prelude.{IfOk, slice_index_or};

use std::alloc::{AllocError, Global};
use std::marker::Model;

/// The answer for want of memory.
pub type OutOfMemory = AllocError;

/// A list that can take the memory for items before they come, so that a later step that must not
/// fail can add them.
///
/// Contracts see its items, and beside them `spare`, the number of items for which room is sure.
/// Two lists with the same items are equal whatever their room is.
#[derive(Drop)]
pub struct Items<T> {
    items: Vec<T>,
    spare: usize,
}

impl<T> Model for Items<T> {
    ghost use Rattle.std.specs.Prelude.{◌+◌, ◌≤◌, vec_len, vec_capacity};
    ghost use Rattle.pm_base.specs.Held.{Held};

    ghost Value = { Held T };

    ghost view = { λ a. record { items = a.items.items; spare = a.spare } };

    ghost invariant = { λ a. vec_len a.items + a.spare ≤ vec_capacity a.items };
}

impl<T: Copy> Items<T> {
    /// The empty list. It takes no memory.
    pub fn new(alloc: Global) -> Items<T>
        ensures items { result.items ≡ [] }
        ensures spare { result.spare ≡ 0 }
    {
        Items {
            items: Vec::new(alloc),
            spare: 0,
        }
    }

    /// Takes room for at least `n` more items, and keeps the room that is there. Where there is no
    /// memory for it, the list is as before.
    pub fn reserve(&mut self, n: usize) -> Result<(), OutOfMemory>
        ensures room { OnOk result (n ≤ self.new.spare) }
        ensures kept { self.old.spare ≤ self.new.spare }
        ensures items { self.new.items ≡ self.old.items }
        ensures err { OnErr result (self.new ≡ self.old) }
    {
        self.items.reserve(n)?;
        self.spare = n.max(self.spare);
        Ok(())
    }

    /// Puts an item last, and takes memory where there is no room. Without memory the list is as
    /// before.
    pub fn push(&mut self, item: T) -> Result<(), OutOfMemory>
        ensures ok { OnOk result (self.new.items ≡ self.old.items ++ item ∷ []) }
        ensures spare { OnOk result (self.old.spare - 1 ≤ self.new.spare) }
        ensures err { OnErr result (self.new ≡ self.old) }
    {
        self.items.push(item)?;
        self.spare = self.spare.saturating_sub(1);
        Ok(())
    }

    /// Puts an item last, into room that was taken before. It takes no memory.
    pub fn push_within_room(&mut self, item: T)
        requires { 1 ≤ self.old.spare }
        ensures items { self.new.items ≡ self.old.items ++ item ∷ [] }
        ensures spare { self.new.spare + 1 ≡ self.old.spare }
    {
        let _ = self.items.push(item);
        self.spare -= 1;
    }

    /// How many items there are.
    pub fn len(&self) -> usize
        ensures { result ≡ length self.now.items }
    {
        self.items.len()
    }

    /// Item `i`, counted from 0.
    pub fn get(&self, i: usize) -> &T
        requires { i < length self.now.items }
        ensures { result.now ≡ slice_index_or self.now.items i result.now }
    {
        &self.items[i]
    }

    /// A list with the same items. Room that was taken for more isn't copied.
    pub fn copy(&self, alloc: Global) -> Result<Items<T>, OutOfMemory>
        ensures { IfOk result (λ list. list.items ≡ self.now.items) }
    {
        let mut items = Vec::with_capacity(alloc, self.items.len())?;
        items.extend_from_slice(&self.items)?;
        Ok(Items { items, spare: 0 })
    }

    /// The items as a slice.
    pub fn as_slice(&self) -> &[T]
        ensures { result.now ≡ self.now.items }
    {
        &self.items
    }
}

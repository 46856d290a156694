//! Linked lists in one arena.
ghost use Rattle.std.specs.Prelude.{◌≡◌, ℕ, ◌+◌, ◌*◌, ◌<◌, ◌≤◌, ◌≢◌, length, slice_index, true};
ghost use Rattle.std.specs.Prelude.{IfOk, ◌↔◌};
ghost use Rattle.pm_links.specs.Lists.{list_of, has, after, first_of, IsHeld, IsFree, IsSound};
ghost use Rattle.pm_links.specs.Lists.{empty_lists, with_first, with_moved, without_item, gathered};
ghost use Rattle.pm_links.specs.Lists.{AreFirst};

use super::rings::{Ends, copy_ends, cut_out, insert_after, move_ring, relabel};
use std::alloc::{AllocError, Global};
use std::marker::Model;

/// The most items, and the most heads, of a `Links`. Items and heads together are then still
/// numbers of 32 bits.
pub const LIMIT: u32 = 4_194_304;

// Clauses and definitions cite the limit by its name, so its value is said here.
const _: () = prove!(LIMIT == 4_194_304);

/// Want of memory.
pub type OutOfMemory = AllocError;

// The owner of an item that is in no list.
const FREE: u32 = u32::MAX;

/// An arena of items and heads. Each head has a list of items, and each item is in at most one
/// list.
///
/// The lists are linked both ways and lie in the arena's own arrays: three words of 32 bits an item
/// and two a head. Only `new` takes memory. Items and heads are numbered from 0.
#[derive(Drop)]
pub struct Links {
    items: u32,
    heads: u32,
    // Node `x` is item `x`, and node `items + h` is head `h`. The list of a head is a ring through
    // its node.
    next: Vec<u32>,
    prev: Vec<u32>,
    // The head in whose list the item is, or `FREE`.
    owner: Vec<u32>,
}

impl Model for Links {
    ghost use Rattle.pm_links.specs.Lists.{Lists};
    ghost use Rattle.pm_links.specs.Arena.{lists_of, IsArena};

    ghost Value = { Lists };

    ghost view = { λ a. record { items = a.items; lists = lists_of a.items a.heads a.next.items } };

    ghost invariant = { λ a. IsArena a.items a.heads a.next.items a.prev.items a.owner.items
        (lists_of a.items a.heads a.next.items) };
}

impl Links {
    /// `n` items and `m` heads, and every list empty. O(n + m), and the only call that takes
    /// memory.
    pub fn new(alloc: Global, n: u32, m: u32) -> Result<Links, OutOfMemory>
        requires items { n ≤ LIMIT }
        requires heads { m ≤ LIMIT }
        ensures value { IfOk result (λ links. links ≡ empty_lists n m) }
        ensures sound { IfOk result IsSound }
    {
        let next = identity(alloc, n + m)?;
        let prev = identity(alloc, n + m)?;
        let owner = vec![in alloc; FREE; n as usize]?;
        Ok(Links {
            items: n,
            heads: m,
            next,
            prev,
            owner,
        })
    }

    /// Puts `item`, which is in no list, first in the list of `head`. O(1).
    pub fn push_front(&mut self, head: u32, item: u32)
        requires head_in { head < length self.old.lists }
        requires item_in { item < self.old.items }
        requires free { IsFree self.old item }
        ensures lists { self.new ≡ with_first self.old head item }
        ensures sound { IsSound self.new }
    {
        let node = self.items + head;
        insert_after(&mut self.next, &mut self.prev, node, item);
        self.owner[item as usize] = head;
    }

    /// Takes `item` out of its list. The order of the rest stays. O(1).
    pub fn unlink(&mut self, item: u32)
        requires { IsHeld self.old item }
        ensures lists { self.new ≡ without_item self.old item }
        ensures sound { IsSound self.new }
    {
        cut_out(&mut self.next, &mut self.prev, item);
        self.owner[item as usize] = FREE;
    }

    /// Puts the items of the list of `from`, in order, before those of the list of `to`. Afterwards
    /// the list of `from` is empty. It goes once through the items of `from`.
    pub fn move_all(&mut self, from: u32, to: u32)
        requires from_in { from < length self.old.lists }
        requires to_in { to < length self.old.lists }
        requires differ { from ≢ to }
        ensures lists { self.new ≡ with_moved self.old from to }
        ensures sound { IsSound self.new }
    {
        let from_node = self.items + from;
        let first = self.next[from_node as usize];
        if first < self.items {
            relabel(&self.next, &mut self.owner, first, to);
            move_ring(&mut self.next, &mut self.prev, from_node, self.items + to);
        }
    }

    /// The first item of the list of `head`, and `None` exactly where the list is empty. O(1).
    pub fn first(&self, head: u32) -> Option<u32>
        requires { head < length self.now.lists }
        ensures value { result ≡ first_of (list_of self.now head) }
        ensures sound { IsSound self.now }
    {
        let node = self.next[(self.items + head) as usize];
        if node < self.items { Some(node) } else { None }
    }

    /// The item after `item`, which is in a list, and `None` exactly at the last of its list. O(1).
    pub fn next(&self, item: u32) -> Option<u32>
        requires { IsHeld self.now item }
        ensures value { (h : ℕ) → has (list_of self.now h) item ≡ true
            → result ≡ first_of (after item (list_of self.now h)) }
        ensures sound { IsSound self.now }
    {
        let node = self.next[item as usize];
        if node < self.items { Some(node) } else { None }
    }

    /// Copies the first items of the list of `head`, in order, to the places of `room` before
    /// `front` and then to those from `back` on. They are all, where there is room for them, and
    /// else at least half as many as there is room for. Two walks go from the two ends of the list,
    /// so that two reads are under way at a time. Each item is one step at most.
    pub fn gather(&self, head: u32, room: &mut [u32]) -> Ends
        requires { head < length self.now.lists }
        ensures len { length room.new ≡ length room.old }
        ensures front { result.front ≤ result.back }
        ensures back { result.back ≤ length room.new }
        ensures first { AreFirst (gathered room.new result.front result.back)
            (list_of self.now head) }
        ensures all { length (list_of self.now head) ≤ length room.old
            → gathered room.new result.front result.back ≡ list_of self.now head }
        ensures more { length room.old < length (list_of self.now head)
            → length room.old ≤ 2 * result.front }
        ensures sound { IsSound self.now }
    {
        copy_ends(&self.next, &self.prev, self.items + head, room)
    }

    /// The head in whose list `item` is, and `None` exactly where it is in no list. O(1).
    pub fn head_of(&self, item: u32) -> Option<u32>
        requires { item < self.now.items }
        ensures value { (h : ℕ) → (result ≡ Some h) ↔ (has (list_of self.now h) item ≡ true) }
        ensures sound { IsSound self.now }
    {
        let head = self.owner[item as usize];
        if head < self.heads { Some(head) } else { None }
    }
}

// Each number below `len`, in order: rings of one node each.
fn identity(alloc: Global, len: u32) -> Result<Vec<u32>, OutOfMemory>
    ensures len { IfOk result (λ numbers. length numbers.items ≡ len) }
    ensures own { IfOk result (λ numbers. (k : ℕ) → k < len → slice_index numbers.items k ≡ k) }
{
    let mut numbers = Vec::with_capacity(alloc, len as usize)?;
    for number in 0..len {
        numbers.push(number)?;
    }
    Ok(numbers)
}

//! The tables of the heap: which item stands at a place, with its key, and at which place an item
//! stands.
//!
//! The tables of items and of places are inverse to each other, over all items at all times, so one
//! exchange is the only write that they need. Keys are kept for the first places alone, those of
//! the items that have one.

ghost use Rattle.std.specs.Prelude.{◌≡◌, ◌<◌, ◌≤◌, None, Some, length, replicate, is_some};
ghost use Rattle.std.specs.Prelude.{slice_index, slice_set, IfOk};
ghost use Rattle.pm_queue.specs.Entries.{key_at};
ghost use Rattle.pm_queue.specs.Heap.{item_key, place_key, precedes};
ghost use Rattle.pm_queue.specs.Tables.{entries_of, order, IsExchanged, IsKept, IsPlaced};
ghost use Rattle.pm_queue.specs.Tables.{SetsKey};

use super::key::Key;
use super::places::{exchange_items, identity};
use super::queue::{ITEM_LIMIT, OutOfMemory};
use super::samples::least_of_samples;
use super::slot::Slot;
use std::alloc::Global;
use std::marker::Model;

/// The items in the order of their places, those that have a key first.
#[derive(Drop)]
pub(crate) struct Heap {
    // The item at each place.
    items: Vec<u32>,
    // The place of each item.
    places: Vec<u32>,
    // The key of the item at each of the first places, beside the keys that it is compared with.
    // The list has room for the key of each item, which is touched only as keys come.
    keys: Vec<Slot>,
}

impl Model for Heap {
    ghost use Rattle.std.specs.Prelude.{vec_capacity};
    ghost use Rattle.pm_queue.specs.Tables.{Tables};

    ghost Value = { Tables };

    ghost view = { λ h. record {
      items = h.items.items;
      places = h.places.items;
      keys = h.keys.items;
      room = vec_capacity h.keys;
    } };
}

// Whether the item at place `p` goes before the item at place `q`.
fn precedes(items: &[u32], keys: &[Slot], p: u32, q: u32) -> bool
    requires p_key { p < length keys.now }
    requires q_key { q < length keys.now }
    requires p_in { p < length items.now }
    requires q_in { q < length items.now }
    ensures { result ≡ precedes (place_key keys.now p) (slice_index items.now p)
        (place_key keys.now q) (slice_index items.now q) }
{
    let key = &keys[p as usize].key();
    let other = &keys[q as usize].key();
    if key.is_before(other) {
        return true;
    }
    if other.is_before(key) {
        return false;
    }
    // Keys are seldom equal, so the items, which lie elsewhere, are seldom read.
    items[p as usize] < items[q as usize]
}

// Puts the keys of places `p` and `q` in each other's place.
fn exchange_keys(keys: &mut [Slot], p: u32, q: u32)
    requires p_in { p < length keys.old }
    requires q_in { q < length keys.old }
    ensures { keys.new ≡ slice_set (slice_set keys.old p (place_key keys.old q)) q
        (place_key keys.old p) }
{
    let key = keys[p as usize];
    keys[p as usize] = keys[q as usize];
    keys[q as usize] = key;
}

impl Heap {
    /// The items `0..n`, none of which has a key.
    pub(crate) fn new(alloc: Global, n: u32) -> Result<Heap, OutOfMemory>
        requires within_limit { n ≤ ITEM_LIMIT }
        ensures placed { IfOk result (λ t. IsPlaced t) }
        ensures no_keys { IfOk result (λ t. length t.keys ≡ 0) }
        ensures entries { IfOk result (λ t. entries_of t ≡ replicate n None) }
    {
        let items = identity(alloc, n)?;
        let places = identity(alloc, n)?;
        let keys = Vec::with_capacity(alloc, n as usize)?;
        Ok(Heap {
            items,
            places,
            keys,
        })
    }

    /// The place of an item.
    pub(crate) fn place_of(&self, item: u32) -> u32
        requires item_in { item < length self.now.places }
        ensures { result ≡ slice_index self.now.places item }
    {
        self.places[item as usize]
    }

    /// Whether an item has a key.
    pub(crate) fn has(&self, item: u32) -> bool
        requires placed { IsPlaced self.now }
        requires item_in { item < length self.now.places }
        ensures { result ≡ is_some (key_at (entries_of self.now) item) }
    {
        (self.places[item as usize] as usize) < self.keys.len()
    }

    /// How many items have a key.
    pub(crate) fn count(&self) -> u32
        requires placed { IsPlaced self.now }
        ensures { result ≡ length self.now.keys }
    {
        self.keys.len() as u32
    }

    /// The cost of the item at place `p`.
    pub(crate) fn cost(&self, p: u32) -> u128
        requires placed { IsPlaced self.now }
        requires p_in { p < length self.now.keys }
        ensures { result ≡ (item_key (entries_of self.now) (slice_index self.now.items p)).cost }
    {
        self.keys[p as usize].cost()
    }

    /// A place whose key few others are likely to have a lesser cost than.
    pub(crate) fn sample(&self) -> u32
        requires placed { IsPlaced self.now }
        requires some { 0 < length self.now.keys }
        ensures { result < length self.now.keys }
    {
        least_of_samples(&self.keys) as u32
    }

    /// The item at the first place, and its key.
    pub(crate) fn first(&self) -> (u32, Key)
        requires placed { IsPlaced self.now }
        requires some { 0 < length self.now.keys }
        ensures { result ≡ (slice_index self.now.items 0, place_key self.now.keys 0) }
    {
        (self.items[0], self.keys[0].key())
    }

    /// Whether the item at place `p` goes before the item at place `q`: the lesser key, and the
    /// smaller item on equal keys.
    pub(crate) fn goes_first(&self, p: u32, q: u32) -> bool
        requires placed { IsPlaced self.now }
        requires p_in { p < length self.now.keys }
        requires q_in { q < length self.now.keys }
        ensures { result ≡ order self.now (slice_index self.now.items p)
            (slice_index self.now.items q) }
    {
        precedes(&self.items, &self.keys, p, q)
    }

    // Puts the items at places `p` and `q` in each other's place. Their keys stay where they are.
    fn exchange_items(&mut self, p: u32, q: u32)
        requires placed { IsPlaced self.old }
        requires p_in { p < length self.old.places }
        requires q_in { q < length self.old.places }
        ensures exchanged { IsExchanged self.old self.new p q }
        ensures keys { self.new.keys ≡ self.old.keys }
    {
        exchange_items(&mut self.items, &mut self.places, p, q);
    }

    /// Puts the items at places `p` and `q` in each other's place, with their keys.
    pub(crate) fn exchange(&mut self, p: u32, q: u32)
        requires placed { IsPlaced self.old }
        requires p_in { p < length self.old.keys }
        requires q_in { q < length self.old.keys }
        ensures kept { IsKept self.old self.new }
        ensures exchanged { IsExchanged self.old self.new p q }
    {
        self.exchange_items(p, q);
        exchange_keys(&mut self.keys, p, q);
    }

    /// Gives `item` the key. If it had none, it comes behind the others.
    ///
    /// There is room for the key of each item, so this takes no memory.
    pub(crate) fn put_key(&mut self, item: u32, key: Key)
        requires placed { IsPlaced self.old }
        requires item_in { item < length self.old.places }
        ensures { SetsKey self.old self.new item (Some key) }
    {
        let at = self.places[item as usize];
        let len = self.keys.len() as u32;
        if at < len {
            self.keys[at as usize] = Slot::of(key);
            return;
        }
        self.exchange_items(at, len);
        let _ = self.keys.push(Slot::of(key));
    }

    /// Takes the key of `item` away: the last one that has a key takes its place.
    pub(crate) fn drop_key(&mut self, item: u32)
        requires placed { IsPlaced self.old }
        requires item_in { item < length self.old.places }
        requires has_key { slice_index self.old.places item < length self.old.keys }
        ensures { SetsKey self.old self.new item None }
    {
        let at = self.places[item as usize];
        let last = self.keys.len() as u32 - 1;
        self.exchange_items(at, last);
        self.keys.swap_remove(at as usize);
    }
}

//! A store of the last corners by the words that a file has for them, so that most corners are
//! found before their coordinates are made of those.
ghost use Rattle.std.specs.Prelude.{◌≡◌, ◌<◌, IfSome, IfOk, List, None, length, replicate};
ghost use Rattle.pm_base.specs.Place.{Place};
ghost use Rattle.stl_read.specs.Recent.{AreKnown, IsKnown};

use crate::OutOfMemory;
use std::alloc::Global;

/// The three coordinates of a corner as they stand in a file.
#[derive(Clone, Copy)]
pub(crate) struct Words {
    pub x: u32,
    pub y: u32,
    pub z: u32,
}

/// A corner that was read, and its vertex.
#[derive(Clone, Copy)]
pub(crate) struct Known {
    pub words: Words,
    pub vertex: u32,
}

/// The last corner for each of some slots.
#[derive(Drop)]
pub(crate) struct Recent {
    pub slots: Vec<Option<Known>>,
}

// As many empty slots. The length is a parameter, so that no proof unfolds the list.
fn empty_slots(alloc: Global, n: usize) -> Result<Vec<Option<Known>>, OutOfMemory>
    ensures { IfOk result (λ v. v.items ≡ replicate n None) }
{
    vec![in alloc; None; n]
}

// One of so many slots, by all bits of the words.
fn slot_of(words: Words, count: usize) -> usize
    requires { 0 < count }
    ensures { result < count }
{
    let x = words.x.wrapping_mul(0x9e37_79b1);
    let y = words.y.wrapping_mul(0x85eb_ca77);
    let z = words.z.wrapping_mul(0xc2b2_ae3d);
    let all = x ^ y ^ z;
    ((all ^ (all >> 15)).wrapping_mul(0x2c1b_3c6d) >> 12) as usize % count
}

impl Recent {
    pub(crate) fn new(alloc: Global, count: usize) -> Result<Recent, OutOfMemory>
        requires { 0 < count }
        ensures { IfOk result (λ r. (points : List Place) → AreKnown points r.slots.items) }
    {
        let slots = empty_slots(alloc, count)?;
        Ok(Recent { slots })
    }

    /// The vertex of a corner, if it is in its slot.
    pub(crate) fn vertex_of(&self, words: Words) -> Option<u32>
        requires { 0 < length self.now.slots.items }
        ensures { (points : List Place) → AreKnown points self.now.slots.items
            → IfSome result (λ v. IsKnown points words v) }
    {
        match self.slots[slot_of(words, self.slots.len())] {
            Some(k) if k.words.x == words.x && k.words.y == words.y && k.words.z == words.z => {
                Some(k.vertex)
            }
            _ => None,
        }
    }

    /// Puts a corner into its slot.
    pub(crate) fn note(&mut self, words: Words, vertex: u32)
        requires { 0 < length self.old.slots.items }
        ensures { (points : List Place) → AreKnown points self.old.slots.items
            → IsKnown points words vertex → AreKnown points self.new.slots.items }
    {
        let slot = slot_of(words, self.slots.len());
        self.slots[slot] = Some(Known { words, vertex });
    }
}

//! Lists of items by place and of places by item, inverse to each other.

ghost use Rattle.std.specs.Prelude.{◌≡◌, ℕ, ◌<◌, length, slice_index, IfOk};
ghost use Rattle.pm_queue.specs.Places.{place_moved, IsPlaces, IsSwapped};

use super::queue::OutOfMemory;
use std::alloc::Global;

/// Each number below `len`, in order.
pub(crate) fn identity(alloc: Global, len: u32) -> Result<Vec<u32>, OutOfMemory>
    ensures len { IfOk result (λ v. length v.items ≡ len) }
    ensures each { IfOk result (λ v. (k : ℕ) → k < len → slice_index v.items k ≡ k) }
{
    let mut numbers = Vec::with_capacity(alloc, len as usize)?;
    for number in 0..len {
        numbers.push(number)?;
    }
    Ok(numbers)
}

/// Puts the items at places `p` and `q` in each other's place.
pub(crate) fn exchange_items(items: &mut [u32], places: &mut [u32], p: u32, q: u32)
    requires places { IsPlaces (length places.old) items.old places.old }
    requires p_in { p < length places.old }
    requires q_in { q < length places.old }
    ensures inverse { IsPlaces (length places.old) items.new places.new }
    ensures items { IsSwapped items.old items.new p q }
    ensures places { (i : ℕ) → i < length places.old
        → slice_index places.new i ≡ place_moved p q (slice_index places.old i) }
{
    let x = items[p as usize];
    let y = items[q as usize];
    items[p as usize] = y;
    items[q as usize] = x;
    places[x as usize] = q;
    places[y as usize] = p;
}

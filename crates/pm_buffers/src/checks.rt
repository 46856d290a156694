//! Which items can leave a buffer, and which can be put.
ghost use Rattle.std.specs.Prelude.{◌≡◌, ◌≤◌, length, true, false};
ghost use Rattle.pm_buffers.specs.Buffers.{IsBuffer};
ghost use Rattle.pm_buffers.specs.Changes.{AreShown, AreWithin, IsChange, staying, write_count};

use crate::tables::Tables;

/// Whether all of the items are shown.
pub(crate) fn are_shown(tables: &Tables, items: &[u32]) -> bool
    ensures yes { result ≡ true → AreShown tables.now.entries items.now }
    ensures no { result ≡ false → ¬ AreShown tables.now.entries items.now }
{
    for item in items {
        if !tables.shows(*item) {
            return false;
        }
    }
    true
}

/// Whether all of the items are in the range of the buffer's.
pub(crate) fn are_within(tables: &Tables, items: &[u32]) -> bool
    ensures yes { result ≡ true → AreWithin tables.now.entries items.now }
    ensures no { result ≡ false → ¬ AreWithin tables.now.entries items.now }
{
    for item in items {
        if *item as usize >= tables.items() {
            return false;
        }
    }
    true
}

// How many of the items are shown.
fn staying(tables: &Tables, items: &[u32]) -> usize
    requires sound { IsBuffer tables.now }
    requires within { AreWithin tables.now.entries items.now }
    ensures count { result ≡ length (staying tables.now.entries items.now) }
{
    let mut count = 0;
    for item in items {
        if tables.shows(*item) {
            count += 1;
        }
    }
    count
}

/// How many slots a change writes.
pub(crate) fn write_count(tables: &Tables, gone: &[u32], put: &[u32]) -> u32
    requires sound { IsBuffer tables.now }
    requires change { IsChange tables.now.entries gone.now put.now }
    ensures count { result ≡ write_count tables.now.entries gone.now put.now }
{
    put.len().max(gone.len() + staying(tables, put)) as u32
}

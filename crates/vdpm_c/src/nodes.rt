//! The exported functions that tell of nodes.
ghost use Rattle.std.specs.Prelude.{◌≡◌, ◌≢◌, ◌≤◌, ◌<◌, length};
ghost use Rattle.pm_base.specs.Counts.{set_of};
ghost use Rattle.pm_forest.specs.Forest.{node_count, leaf_count, splitter_of, maker_of};
ghost use Rattle.pm_forest.specs.Fronts.{ancestor_of};
ghost use Rattle.pm_arrays.specs.Arrays.{coordinates_of};
ghost use Rattle.pm_viewer.specs.Viewing.{Viewed};
ghost use Rattle.vdpm_c.specs.Border.{IsSound, Has, IsCopied, record_told};

use crate::holding::{put, take};
use crate::inside;
use crate::statuses::NOT_SO;
use crate::tables::Handle;
use std::alloc::Global;

/// Tells which record splits a node.
#[unsafe(no_mangle)]
pub extern "C" fn vdpm_splitter(
    alloc: Global,
    handle: &mut Handle,
    node: u32,
    record_number: &mut u32,
) -> u32
    requires { IsSound handle.old }
    ensures kept { (v : Viewed) → Has handle.old v → Has handle.new v }
    ensures told { (v : Viewed) → Has handle.old v → node < node_count v.shown.h
        → (result ≡ 0) × (record_number.new ≡ record_told (splitter_of v.shown.h node)) }
    ensures no_such { (v : Viewed) → Has handle.old v → (node < node_count v.shown.h → ⊥)
        → (result ≡ 8) × (record_number.new ≡ record_number.old) }
    ensures not_so { handle.old.open ≢ 1 → (result ≡ 6) × (handle.new ≡ handle.old)
        × (record_number.new ≡ record_number.old) }
{
    if handle.open != 1 {
        return NOT_SO;
    }
    let viewer = take(alloc, handle);
    let status = inside::splitter(&viewer, node, record_number);
    put(handle, viewer);
    status
}

/// Tells which record made a node.
#[unsafe(no_mangle)]
pub extern "C" fn vdpm_maker(
    alloc: Global,
    handle: &mut Handle,
    node: u32,
    record_number: &mut u32,
) -> u32
    requires { IsSound handle.old }
    ensures kept { (v : Viewed) → Has handle.old v → Has handle.new v }
    ensures told { (v : Viewed) → Has handle.old v → node < node_count v.shown.h
        → (result ≡ 0) × (record_number.new ≡ record_told (maker_of v.shown.h node)) }
    ensures no_such { (v : Viewed) → Has handle.old v → (node < node_count v.shown.h → ⊥)
        → (result ≡ 8) × (record_number.new ≡ record_number.old) }
    ensures not_so { handle.old.open ≢ 1 → (result ≡ 6) × (handle.new ≡ handle.old)
        × (record_number.new ≡ record_number.old) }
{
    if handle.open != 1 {
        return NOT_SO;
    }
    let viewer = take(alloc, handle);
    let status = inside::maker(&viewer, node, record_number);
    put(handle, viewer);
    status
}

/// Tells which active node has a leaf below it.
#[unsafe(no_mangle)]
pub extern "C" fn vdpm_ancestor(
    alloc: Global,
    handle: &mut Handle,
    leaf: u32,
    node: &mut u32,
) -> u32
    requires { IsSound handle.old }
    ensures kept { (v : Viewed) → Has handle.old v → Has handle.new v }
    ensures told { (v : Viewed) → Has handle.old v → leaf < leaf_count v.shown.h
        → (result ≡ 0) × (node.new ≡ ancestor_of v.shown.h (set_of v.shown.flags) leaf) }
    ensures no_such { (v : Viewed) → Has handle.old v → (leaf < leaf_count v.shown.h → ⊥)
        → (result ≡ 8) × (node.new ≡ node.old) }
    ensures not_so { handle.old.open ≢ 1 → (result ≡ 6) × (handle.new ≡ handle.old)
        × (node.new ≡ node.old) }
{
    if handle.open != 1 {
        return NOT_SO;
    }
    let viewer = take(alloc, handle);
    let status = inside::ancestor(&viewer, leaf, node);
    put(handle, viewer);
    status
}

/// Writes the place of a node.
#[unsafe(no_mangle)]
pub extern "C" fn vdpm_place(alloc: Global, handle: &mut Handle, node: u32, out: &mut [i32]) -> u32
    requires { IsSound handle.old }
    ensures kept { (v : Viewed) → Has handle.old v → Has handle.new v }
    ensures told { (v : Viewed) → Has handle.old v → node < node_count v.shown.h
        → 3 ≤ length out.old
        → (result ≡ 0) × IsCopied (coordinates_of v.shown.h node) out.old out.new }
    ensures no_room { (v : Viewed) → Has handle.old v → node < node_count v.shown.h
        → (3 ≤ length out.old → ⊥) → (result ≡ 7) × (out.new ≡ out.old) }
    ensures no_such { (v : Viewed) → Has handle.old v → (node < node_count v.shown.h → ⊥)
        → (result ≡ 8) × (out.new ≡ out.old) }
    ensures not_so { handle.old.open ≢ 1 → (result ≡ 6) × (handle.new ≡ handle.old)
        × (out.new ≡ out.old) }
{
    if handle.open != 1 {
        return NOT_SO;
    }
    let viewer = take(alloc, handle);
    let status = inside::place(&viewer, node, out);
    put(handle, viewer);
    status
}

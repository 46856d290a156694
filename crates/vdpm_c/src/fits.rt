//! The exported function that tells fits by node.
ghost use Rattle.std.specs.Prelude.{◌≡◌, ◌≢◌, ◌<◌, ◌*◌, ◌↔◌, None, length};
ghost use Rattle.pm_forest.specs.Forest.{node_count, leaf_count};
ghost use Rattle.pm_fits.specs.Faults.{number_fault};
ghost use Rattle.pm_fits.specs.Channels.{fit_array};
ghost use Rattle.pm_viewer.specs.Viewing.{Viewed};
ghost use Rattle.vdpm_c.specs.Border.{IsSound, Has, IsCopied};

use crate::holding::{put, take};
use crate::inside;
use crate::statuses::NOT_SO;
use crate::tables::Handle;
use std::alloc::Global;

/// Writes what all nodes have of numbers of the input's vertices that go with positions.
#[unsafe(no_mangle)]
pub extern "C" fn vdpm_fits(
    alloc: Global,
    handle: &mut Handle,
    channels: u32,
    by_vertex: &[i32],
    by_node: &mut [i32],
) -> u32
    requires { IsSound handle.old }
    ensures kept { (v : Viewed) → Has handle.old v → Has handle.new v }
    ensures done { (v : Viewed) → Has handle.old v → result ≡ 0
        → IsCopied (fit_array v.shown.h channels by_vertex.now) by_node.old by_node.new }
    ensures out_of_range { (v : Viewed) → Has handle.old v → result ≡ 2
        ↔ (number_fault (leaf_count v.shown.h * channels) by_vertex.now ≢ None) }
    ensures no_room { (v : Viewed) → Has handle.old v → result ≡ 7
        ↔ (number_fault (leaf_count v.shown.h * channels) by_vertex.now ≡ None)
        × (length by_node.old < node_count v.shown.h * channels) }
    ensures statuses { (v : Viewed) → Has handle.old v
        → result ≢ 0 → result ≢ 2 → result ≢ 7 → result ≡ 5 }
    ensures unwritten { result ≢ 0 → by_node.new ≡ by_node.old }
    ensures not_so { handle.old.open ≢ 1 → (result ≡ 6) × (handle.new ≡ handle.old)
        × (by_node.new ≡ by_node.old) }
{
    if handle.open != 1 {
        return NOT_SO;
    }
    let viewer = take(alloc, handle);
    let status = inside::fits(alloc, &viewer, channels, by_vertex, by_node);
    put(handle, viewer);
    status
}

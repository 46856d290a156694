//! The exported function that tells means by node.
ghost use Rattle.std.specs.Prelude.{◌≡◌, ◌≢◌, ◌<◌, ◌*◌, ◌↔◌, length};
ghost use Rattle.pm_forest.specs.Forest.{node_count, leaf_count};
ghost use Rattle.pm_paint.specs.Means.{mean_array};
ghost use Rattle.pm_viewer.specs.Viewing.{Viewed};
ghost use Rattle.vdpm_c.specs.Border.{IsSound, Has, IsCopied};

use crate::holding::{put, take};
use crate::inside;
use crate::statuses::NOT_SO;
use crate::tables::Handle;
use std::alloc::Global;

/// Writes the rounded means of all nodes of what the vertices of the input have.
#[unsafe(no_mangle)]
pub extern "C" fn vdpm_means(
    alloc: Global,
    handle: &mut Handle,
    channels: u32,
    by_vertex: &[u16],
    by_node: &mut [u16],
) -> u32
    requires { IsSound handle.old }
    ensures kept { (v : Viewed) → Has handle.old v → Has handle.new v }
    ensures done { (v : Viewed) → Has handle.old v → result ≡ 0
        → IsCopied (mean_array v.shown.h channels by_vertex.now) by_node.old by_node.new }
    ensures out_of_range { (v : Viewed) → Has handle.old v → result ≡ 2
        ↔ (length by_vertex.now ≢ leaf_count v.shown.h * channels) }
    ensures no_room { (v : Viewed) → Has handle.old v → result ≡ 7
        ↔ (length by_vertex.now ≡ leaf_count v.shown.h * channels)
        × (length by_node.old < node_count v.shown.h * channels) }
    ensures statuses { (v : Viewed) → Has handle.old v
        → result ≢ 0 → result ≢ 2 → result ≢ 7 → result ≡ 5 }
    ensures unwritten { result ≢ 0 → by_node.new ≡ by_node.old }
    ensures not_so { handle.old.open ≢ 1 → (result ≡ 6) × (handle.new ≡ handle.old)
        × (by_node.new ≡ by_node.old) }
{
    if handle.open != 1 {
        return NOT_SO;
    }
    let viewer = take(alloc, handle);
    let status = inside::means(alloc, &viewer, channels, by_vertex, by_node);
    put(handle, viewer);
    status
}

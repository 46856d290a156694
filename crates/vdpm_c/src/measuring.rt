//! The exported functions that tell how large the complete mesh is, and how fine what is shown.
ghost use Rattle.std.specs.Prelude.{◌≡◌, ◌≢◌};
ghost use Rattle.pm_viewer.specs.Measuring.{mesh_extent};
ghost use Rattle.pm_viewer.specs.Viewing.{Viewed};
ghost use Rattle.vdpm_c.specs.Border.{IsSound, Has, IsLevelOf, extent_told};

use crate::holding::{put, take};
use crate::statuses::{DONE, NOT_SO};
use crate::tables::{ExtentTold, Handle, LevelTold};
use pm_viewer::Extent;
use std::alloc::Global;

// An extent, as C takes it.
fn extent_told(extent: Extent) -> ExtentTold
    ensures { result ≡ extent_told extent }
{
    ExtentTold {
        low_x: extent.low.x,
        low_y: extent.low.y,
        low_z: extent.low.z,
        high_x: extent.high.x,
        high_y: extent.high.y,
        high_z: extent.high.z,
    }
}

/// Tells the bounding box of the complete mesh.
#[unsafe(no_mangle)]
pub extern "C" fn vdpm_extent(alloc: Global, handle: &mut Handle, extent: &mut ExtentTold) -> u32
    requires { IsSound handle.old }
    ensures kept { (v : Viewed) → Has handle.old v → Has handle.new v }
    ensures told { (v : Viewed) → Has handle.old v
        → (result ≡ 0) × (extent.new ≡ extent_told (mesh_extent v.shown.h)) }
    ensures not_so { handle.old.open ≢ 1 → (result ≡ 6) × (handle.new ≡ handle.old)
        × (extent.new ≡ extent.old) }
{
    if handle.open != 1 {
        return NOT_SO;
    }
    let viewer = take(alloc, handle);
    *extent = extent_told(viewer.extent());
    put(handle, viewer);
    DONE
}

/// Tells how fine the mesh that is shown is.
#[unsafe(no_mangle)]
pub extern "C" fn vdpm_level(alloc: Global, handle: &mut Handle, level: &mut LevelTold) -> u32
    requires { IsSound handle.old }
    ensures kept { (v : Viewed) → Has handle.old v → Has handle.new v }
    ensures told { (v : Viewed) → Has handle.old v → (result ≡ 0) × IsLevelOf v level.new }
    ensures not_so { handle.old.open ≢ 1 → (result ≡ 6) × (handle.new ≡ handle.old)
        × (level.new ≡ level.old) }
{
    if handle.open != 1 {
        return NOT_SO;
    }
    let viewer = take(alloc, handle);
    let shown = viewer.level();
    put(handle, viewer);
    *level = LevelTold {
        error: shown.error,
        deviation: shown.deviation,
        split: shown.split,
    };
    DONE
}

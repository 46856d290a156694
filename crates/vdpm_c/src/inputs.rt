//! The exported function that tells which vertices and faces of the input nodes and faces are.
ghost use Rattle.std.specs.Prelude.{◌≡◌, ◌≢◌, ◌*◌, ◌≤◌, ◌↔◌, length};
ghost use Rattle.pm_forest.specs.Faces.{face_count};
ghost use Rattle.pm_viewer.specs.Viewing.{Viewed};
ghost use Rattle.pm_viewer.specs.Inputs.{InputsFit, AreInputsOf};
ghost use Rattle.vdpm_c.specs.Border.{IsSound, Has};

use crate::holding::{put, take};
use crate::statuses::{DONE, NO_ROOM, NOT_SO};
use crate::tables::Handle;
use std::alloc::Global;

/// Writes for each node which vertex of the input it is, and for each face which face.
#[unsafe(no_mangle)]
pub extern "C" fn vdpm_inputs(
    alloc: Global,
    handle: &mut Handle,
    by_node: &mut [u32],
    by_face: &mut [u32],
    faces: &mut u32,
) -> u32
    requires { IsSound handle.old }
    ensures kept { (v : Viewed) → Has handle.old v → Has handle.new v }
    ensures fits { (v : Viewed) → Has handle.old v
        → (result ≡ 0) ↔ InputsFit v.shown.h (length by_node.old) (length by_face.old) }
    ensures told { (v : Viewed) → Has handle.old v → result ≡ 0
        → AreInputsOf v.shown.h by_node.old by_face.old by_node.new by_face.new }
    ensures counted { (v : Viewed) → Has handle.old v → faces.new ≡ face_count v.shown.h }
    ensures no_room { (v : Viewed) → Has handle.old v → result ≢ 0
        → (result ≡ 7) × (by_node.new ≡ by_node.old) × (by_face.new ≡ by_face.old) }
    ensures not_so { handle.old.open ≢ 1 → (result ≡ 6) × (handle.new ≡ handle.old)
        × (by_node.new ≡ by_node.old) × (by_face.new ≡ by_face.old)
        × (faces.new ≡ faces.old) }
{
    if handle.open != 1 {
        return NOT_SO;
    }
    let viewer = take(alloc, handle);
    *faces = viewer.faces();
    let told = viewer.inputs(by_node, by_face);
    put(handle, viewer);
    match told {
        Ok(()) => DONE,
        Err(_) => NO_ROOM,
    }
}

//! The exported functions. Each answers a status: 0 where all was done.
ghost use Rattle.std.specs.Prelude.{◌≡◌, ◌≢◌, ◌≤◌, ◌<◌, ◌*◌, ◌↔◌, None, length, take};
ghost use Rattle.pm_base.specs.Counts.{set_of};
ghost use Rattle.pm_front.specs.Shown.{active_nodes, kept_faces};
ghost use Rattle.pm_arrays.specs.Arrays.{place_array, position_array, node_array};
ghost use Rattle.pm_viewer.specs.Viewing.{Viewed, FrameFits, FrameLeaves};
ghost use Rattle.vdpm_c.specs.Border.{IsSound, Has, LineDone, Opened, Refused, AreCountsOf};
ghost use Rattle.vdpm_c.specs.Border.{IsCopied};

use crate::holding::{put, take};
use crate::inside;
use crate::statuses::{DONE, NO_MEMORY, NO_ROOM, NOT_SO};
use crate::tables::{Counts, Handle};
use pm_viewer::Viewer;
use std::alloc::Global;

/// Opens a viewer on the bytes of a stream.
#[unsafe(no_mangle)]
pub extern "C" fn vdpm_open(
    alloc: Global,
    stream: &[u8],
    budget: u32,
    handle: &mut Handle,
    place: &mut u64,
) -> u32
    ensures opened { result ≡ 0 → (v : Viewed) × Has handle.new v × Opened stream.now budget v }
    ensures refused { result ≢ 0 → result ≢ 5 → result ≢ 6 → Refused stream.now result place.new }
    ensures statuses { result ≢ 0 → result ≢ 5 → result ≢ 6 → 11 ≤ result }
    ensures no_place { result < 11 → place.new ≡ 0 }
    ensures not_so { result ≡ 6 ↔ (handle.old.open ≢ 0) }
    ensures as_before { result ≢ 0 → handle.new ≡ handle.old }
{
    *place = 0;
    if handle.open != 0 {
        return NOT_SO;
    }
    let viewer = match Viewer::open(alloc, stream, budget) {
        Ok(viewer) => viewer,
        Err(fail) => return inside::refused(fail, place),
    };
    let Ok(boxed) = Box::new(alloc, viewer) else {
        return NO_MEMORY;
    };
    put(handle, boxed);
    DONE
}

/// Does a script line of `live`.
#[unsafe(no_mangle)]
pub extern "C" fn vdpm_line(alloc: Global, handle: &mut Handle, line: &[u8]) -> u32
    requires { IsSound handle.old }
    ensures done { (v : Viewed) → Has handle.old v
        → (w : Viewed) × Has handle.new w × LineDone v line.now result w }
    ensures not_so { handle.old.open ≢ 1 → (result ≡ 6) × (handle.new ≡ handle.old) }
{
    if handle.open != 1 {
        return NOT_SO;
    }
    let mut viewer = take(alloc, handle);
    let status = inside::line(&mut viewer, line);
    put(handle, viewer);
    status
}

/// Tells how long the reply to the last line is.
#[unsafe(no_mangle)]
pub extern "C" fn vdpm_reply_length(alloc: Global, handle: &mut Handle, count: &mut usize) -> u32
    requires { IsSound handle.old }
    ensures told { (v : Viewed) → Has handle.old v
        → (result ≡ 0) × (count.new ≡ length v.reply) × Has handle.new v }
    ensures not_so { handle.old.open ≢ 1 → (result ≡ 6) × (handle.new ≡ handle.old)
        × (count.new ≡ count.old) }
{
    if handle.open != 1 {
        return NOT_SO;
    }
    let viewer = take(alloc, handle);
    *count = viewer.reply().len();
    put(handle, viewer);
    DONE
}

/// Copies the reply to the last line.
#[unsafe(no_mangle)]
pub extern "C" fn vdpm_reply(alloc: Global, handle: &mut Handle, out: &mut [u8]) -> u32
    requires { IsSound handle.old }
    ensures copied { (v : Viewed) → Has handle.old v → length v.reply ≤ length out.old
        → (result ≡ 0) × IsCopied v.reply out.old out.new × Has handle.new v }
    ensures no_room { (v : Viewed) → Has handle.old v → (length v.reply ≤ length out.old → ⊥)
        → (result ≡ 7) × (out.new ≡ out.old) × Has handle.new v }
    ensures not_so { handle.old.open ≢ 1 → (result ≡ 6) × (handle.new ≡ handle.old)
        × (out.new ≡ out.old) }
{
    if handle.open != 1 {
        return NOT_SO;
    }
    let viewer = take(alloc, handle);
    let status = inside::copy(viewer.reply(), out);
    put(handle, viewer);
    status
}

/// Tells how large the hierarchy and the mesh shown are.
#[unsafe(no_mangle)]
pub extern "C" fn vdpm_counts(alloc: Global, handle: &mut Handle, counts: &mut Counts) -> u32
    requires { IsSound handle.old }
    ensures told { (v : Viewed) → Has handle.old v
        → (result ≡ 0) × AreCountsOf v counts.new × Has handle.new v }
    ensures not_so { handle.old.open ≢ 1 → (result ≡ 6) × (handle.new ≡ handle.old)
        × (counts.new ≡ counts.old) }
{
    if handle.open != 1 {
        return NOT_SO;
    }
    let viewer = take(alloc, handle);
    *counts = inside::counts(&viewer);
    put(handle, viewer);
    DONE
}

/// Writes the mesh that is shown.
#[unsafe(no_mangle)]
pub extern "C" fn vdpm_frame(
    alloc: Global,
    handle: &mut Handle,
    nodes: &mut [u32],
    places: &mut [i32],
    faces: &mut [u32],
    corners: &mut [u32],
    corner_nodes: &mut [u32],
) -> u32
    requires { IsSound handle.old }
    ensures kept { (v : Viewed) → Has handle.old v → Has handle.new v }
    ensures no_room { (v : Viewed) → Has handle.old v → result ≢ 0
        → (result ≡ 7) × (nodes.new ≡ nodes.old) × (places.new ≡ places.old) × (faces.new
        ≡ faces.old)
        × (corners.new ≡ corners.old) × (corner_nodes.new ≡ corner_nodes.old) }
    ensures fits { (v : Viewed) → Has handle.old v → (result ≡ 0) ↔ FrameFits v.shown.h
        (set_of v.shown.flags)
        (length nodes.old) (length places.old) (length faces.old) (length corners.old)
        (length corner_nodes.old) }
    ensures nodes { (v : Viewed) → Has handle.old v → result ≡ 0
        → take (length (active_nodes v.shown.h (set_of v.shown.flags))) nodes.new
        ≡ active_nodes v.shown.h (set_of v.shown.flags) }
    ensures places { (v : Viewed) → Has handle.old v → result ≡ 0
        → take (3 * length (active_nodes v.shown.h (set_of v.shown.flags))) places.new
        ≡ place_array v.shown.h (set_of v.shown.flags) }
    ensures faces { (v : Viewed) → Has handle.old v → result ≡ 0
        → take (length (kept_faces v.shown.h (set_of v.shown.flags))) faces.new
        ≡ kept_faces v.shown.h (set_of v.shown.flags) }
    ensures corners { (v : Viewed) → Has handle.old v → result ≡ 0
        → take (3 * length (kept_faces v.shown.h (set_of v.shown.flags))) corners.new
        ≡ position_array v.shown.h (set_of v.shown.flags) }
    ensures corner_nodes { (v : Viewed) → Has handle.old v → result ≡ 0
        → take (3 * length (kept_faces v.shown.h (set_of v.shown.flags))) corner_nodes.new
        ≡ node_array v.shown.h (set_of v.shown.flags) }
    ensures behind { (v : Viewed) → Has handle.old v → result ≡ 0
        → FrameLeaves v.shown.h (set_of v.shown.flags) nodes.old places.old faces.old corners.old
        corner_nodes.old nodes.new places.new faces.new corners.new corner_nodes.new }
    ensures not_so { handle.old.open ≢ 1 → (result ≡ 6) × (handle.new ≡ handle.old)
        × (nodes.new ≡ nodes.old) × (places.new ≡ places.old) × (faces.new ≡ faces.old)
        × (corners.new ≡ corners.old) × (corner_nodes.new ≡ corner_nodes.old) }
{
    if handle.open != 1 {
        return NOT_SO;
    }
    let mut viewer = take(alloc, handle);
    let status = match viewer.frame(nodes, places, faces, corners, corner_nodes) {
        Ok(()) => DONE,
        Err(_) => NO_ROOM,
    };
    put(handle, viewer);
    status
}

/// Closes a viewer. One that isn't open stays as it is.
#[unsafe(no_mangle)]
pub extern "C" fn vdpm_close(alloc: Global, handle: &mut Handle)
    requires { IsSound handle.old }
    ensures closed { handle.old.open ≡ 1 → (handle.new.open ≡ 0) × (handle.new.slot.value ≡ None) }
    ensures not_so { handle.old.open ≢ 1 → handle.new ≡ handle.old }
{
    if handle.open == 1 {
        let _ = take(alloc, handle);
    }
}

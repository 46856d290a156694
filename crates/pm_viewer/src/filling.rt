//! Filling arrays with a frame.
ghost use Rattle.std.specs.Prelude.{◌≡◌, ◌≤◌, ◌*◌, true, false, IfOk, OnOk, OnErr, length, take};
ghost use Rattle.std.specs.Prelude.{drop};
ghost use Rattle.pm_base.specs.Counts.{set_of};
ghost use Rattle.pm_forest.specs.Forest.{node_count};
ghost use Rattle.pm_front.specs.Shown.{active_nodes, kept_faces};
ghost use Rattle.pm_arrays.specs.Arrays.{place_array, position_array, node_array, ArePositions};
ghost use Rattle.pm_viewer.specs.Viewing.{FrameFits, FrameLeaves};

use pm_arrays::{write_faces, write_nodes};
use pm_front::Front;
use std::alloc::{AllocError, Global};

/// An array has less room than what is written into it. Nothing was written.
#[derive(Clone, Copy, Debug, PartialEq, Eq)]
pub struct TooSmall;

/// A number for each node, as `write_frame` works with.
pub(crate) fn positions_of(alloc: Global, front: &Front) -> Result<Vec<u32>, AllocError>
    ensures { IfOk result (λ v. length v.items ≡ node_count front.now.h) }
{
    vec![in alloc; 0u32; front.hierarchy().nodes() as usize]
}

// Whether the mesh that a front shows fits into arrays.
fn fits(
    front: &Front,
    nodes: &[u32],
    places: &[i32],
    faces: &[u32],
    corners: &[u32],
    corner_nodes: &[u32],
) -> bool
    ensures yes { result ≡ true → FrameFits front.now.h (set_of front.now.flags)
        (length nodes.now) (length places.now) (length faces.now) (length corners.now)
        (length corner_nodes.now) }
    ensures no { result ≡ false → FrameFits front.now.h (set_of front.now.flags)
        (length nodes.now) (length places.now) (length faces.now) (length corners.now)
        (length corner_nodes.now) → ⊥ }
{
    let n = front.active_count() as usize;
    let f = front.kept_count() as usize;
    if nodes.len() < n || places.len() < 3 * n {
        return false;
    }
    if faces.len() < f || corners.len() < 3 * f {
        return false;
    }
    if corner_nodes.len() < 3 * f {
        return false;
    }
    true
}

// Writes the active nodes and their places to the front of the arrays.
fn fill_nodes(front: &Front, positions: &mut [u32], nodes: &mut [u32], places: &mut [i32])
    requires positions_fit { length positions.old ≡ node_count front.now.h }
    requires nodes_fit { length (active_nodes front.now.h
        (set_of front.now.flags)) ≤ length nodes.old }
    requires places_fit { 3 * length (active_nodes front.now.h
        (set_of front.now.flags)) ≤ length places.old }
    ensures nodes { let n = length (active_nodes front.now.h (set_of front.now.flags)) in
        take n nodes.new ≡ active_nodes front.now.h (set_of front.now.flags) }
    ensures places { let n = length (active_nodes front.now.h (set_of front.now.flags)) in
        take (3 * n) places.new ≡ place_array front.now.h (set_of front.now.flags) }
    ensures nodes_behind { let n = length (active_nodes front.now.h (set_of front.now.flags)) in
        drop n nodes.new ≡ drop n nodes.old }
    ensures places_behind { let n = length (active_nodes front.now.h (set_of front.now.flags)) in
        drop (3 * n) places.new ≡ drop (3 * n) places.old }
    ensures positions { ArePositions front.now.h (set_of front.now.flags) positions.new }
{
    let n = front.active_count() as usize;
    write_nodes(front, &mut nodes[..n], &mut places[..3 * n], positions);
}

// Writes the kept faces and their corners to the front of the arrays.
fn fill_faces(
    front: &Front,
    positions: &[u32],
    faces: &mut [u32],
    corners: &mut [u32],
    corner_nodes: &mut [u32],
)
    requires positions { ArePositions front.now.h (set_of front.now.flags) positions.now }
    requires faces_fit { length (kept_faces front.now.h
        (set_of front.now.flags)) ≤ length faces.old }
    requires corners_fit { 3 * length (kept_faces front.now.h
        (set_of front.now.flags)) ≤ length corners.old }
    requires corner_nodes_fit { 3 * length (kept_faces front.now.h
        (set_of front.now.flags)) ≤ length corner_nodes.old }
    ensures faces { let n = length (kept_faces front.now.h (set_of front.now.flags)) in
        take n faces.new ≡ kept_faces front.now.h (set_of front.now.flags) }
    ensures corners { let n = length (kept_faces front.now.h (set_of front.now.flags)) in
        take (3 * n) corners.new ≡ position_array front.now.h (set_of front.now.flags) }
    ensures corner_nodes { let n = length (kept_faces front.now.h (set_of front.now.flags)) in
        take (3 * n) corner_nodes.new ≡ node_array front.now.h (set_of front.now.flags) }
    ensures faces_behind { let n = length (kept_faces front.now.h (set_of front.now.flags)) in
        drop n faces.new ≡ drop n faces.old }
    ensures corners_behind { let n = length (kept_faces front.now.h (set_of front.now.flags)) in
        drop (3 * n) corners.new ≡ drop (3 * n) corners.old }
    ensures corner_nodes_behind { let n = length (kept_faces front.now.h
        (set_of front.now.flags)) in
        drop (3 * n) corner_nodes.new ≡ drop (3 * n) corner_nodes.old }
{
    let n = front.kept_count() as usize;
    write_faces(
        front,
        positions,
        &mut faces[..n],
        &mut corners[..3 * n],
        &mut corner_nodes[..3 * n],
    );
}

/// Writes the mesh that a front shows to the front of the arrays, where it fits. In `positions`
/// there is a number for each node.
pub(crate) fn write_frame(
    front: &Front,
    positions: &mut [u32],
    nodes: &mut [u32],
    places: &mut [i32],
    faces: &mut [u32],
    corners: &mut [u32],
    corner_nodes: &mut [u32],
) -> Result<(), TooSmall>
    requires positions_fit { length positions.old ≡ node_count front.now.h }
    ensures fits { OnOk result (FrameFits front.now.h (set_of front.now.flags)
        (length nodes.old) (length places.old) (length faces.old) (length corners.old)
        (length corner_nodes.old)) }
    ensures refused { OnErr result (FrameFits front.now.h (set_of front.now.flags)
        (length nodes.old) (length places.old) (length faces.old) (length corners.old)
        (length corner_nodes.old) → ⊥) }
    ensures nodes { let n = length (active_nodes front.now.h (set_of front.now.flags)) in
        OnOk result (take n nodes.new ≡ active_nodes front.now.h (set_of front.now.flags)) }
    ensures places { let n = length (active_nodes front.now.h (set_of front.now.flags)) in
        OnOk result (take (3 * n) places.new ≡ place_array front.now.h (set_of front.now.flags)) }
    ensures faces { let n = length (kept_faces front.now.h (set_of front.now.flags)) in
        OnOk result (take n faces.new ≡ kept_faces front.now.h (set_of front.now.flags)) }
    ensures corners { let n = length (kept_faces front.now.h (set_of front.now.flags)) in
        OnOk result (take (3 * n) corners.new ≡ position_array front.now.h
        (set_of front.now.flags)) }
    ensures corner_nodes { let n = length (kept_faces front.now.h (set_of front.now.flags)) in
        OnOk result (take (3 * n) corner_nodes.new ≡ node_array front.now.h
        (set_of front.now.flags)) }
    ensures behind { OnOk result (FrameLeaves front.now.h (set_of front.now.flags)
        nodes.old places.old faces.old corners.old corner_nodes.old
        nodes.new places.new faces.new corners.new corner_nodes.new) }
    ensures unwritten { OnErr result ((nodes.new ≡ nodes.old) × (places.new ≡ places.old) ×
        (faces.new ≡ faces.old)
        × (corners.new ≡ corners.old) × (corner_nodes.new ≡ corner_nodes.old)) }
    ensures positions_len { length positions.new ≡ length positions.old }
{
    if !fits(front, nodes, places, faces, corners, corner_nodes) {
        return Err(TooSmall);
    }
    fill_nodes(front, positions, nodes, places);
    fill_faces(front, positions, faces, corners, corner_nodes);
    Ok(())
}

//! The kept faces and their corners.
ghost use Rattle.std.specs.Prelude.{◌≡◌, ◌+◌, ◌*◌, ◌<◌, true, length};
ghost use Rattle.pm_base.specs.Counts.{set_of};
ghost use Rattle.pm_forest.specs.Faces.{face_count};
ghost use Rattle.pm_forest.specs.Kept.{is_kept};
ghost use Rattle.pm_front.specs.Shown.{kept_faces};
ghost use Rattle.pm_arrays.specs.Arrays.{face_nodes, face_positions, node_array, position_array};
ghost use Rattle.pm_arrays.specs.Arrays.{ArePositions};

use crate::storing::{store, store_three};
use pm_base::FaceId;
use pm_front::Front;

/// The nodes at the corners of a kept face, in its corner order.
pub fn corners_of(front: &Front, face: u32) -> [u32; 3]
    requires there { face < face_count front.now.h }
    requires kept { is_kept front.now.h (set_of front.now.flags) face ≡ true }
    ensures { result ≡ face_nodes front.now.h (set_of front.now.flags) face }
{
    let face = FaceId(face);
    let a = front.corner(face, 0);
    let b = front.corner(face, 1);
    let c = front.corner(face, 2);
    [a.0, b.0, c.0]
}

// The corners of a face, as nodes and by where those stand.
#[derive(Clone, Copy)]
struct FaceCorners {
    nodes: [u32; 3],
    positions: [u32; 3],
}

// The corners of a kept face.
fn corners_at(front: &Front, positions: &[u32], face: u32) -> FaceCorners
    requires positions { ArePositions front.now.h (set_of front.now.flags) positions.now }
    requires there { face < face_count front.now.h }
    requires kept { is_kept front.now.h (set_of front.now.flags) face ≡ true }
    ensures nodes { result.nodes ≡ face_nodes front.now.h (set_of front.now.flags) face }
    ensures positions { result.positions ≡ face_positions front.now.h (set_of front.now.flags)
        face }
{
    front.hierarchy().invariant();
    let nodes = corners_of(front, face);
    let [a, b, c] = nodes;
    let positions = [
        positions[a as usize],
        positions[b as usize],
        positions[c as usize],
    ];
    FaceCorners { nodes, positions }
}

/// Writes the numbers of the kept faces into `faces`, ascending, and their corners, three for each
/// face in its corner order: into `nodes` as nodes, and into `corners` by the positions of
/// `positions`, which `write_nodes` has told of this front. The arrays have just that room. It
/// costs a pass over all faces, and takes no memory.
pub fn write_faces(
    front: &Front,
    positions: &[u32],
    faces: &mut [u32],
    corners: &mut [u32],
    nodes: &mut [u32],
)
    requires positions { ArePositions front.now.h (set_of front.now.flags) positions.now }
    requires faces_fit { length faces.old
        ≡ length (kept_faces front.now.h (set_of front.now.flags)) }
    requires corners_fit { length corners.old
        ≡ 3 * length (kept_faces front.now.h (set_of front.now.flags)) }
    requires nodes_fit { length nodes.old
        ≡ 3 * length (kept_faces front.now.h (set_of front.now.flags)) }
    ensures faces { faces.new ≡ kept_faces front.now.h (set_of front.now.flags) }
    ensures corners { corners.new ≡ position_array front.now.h (set_of front.now.flags) }
    ensures nodes { nodes.new ≡ node_array front.now.h (set_of front.now.flags) }
{
    let mut count = 0usize;
    for face in 0..front.hierarchy().faces() {
        if front.is_kept(FaceId(face)) {
            let at = corners_at(front, positions, face);
            store(faces, count, face);
            store_three(nodes, count, at.nodes);
            store_three(corners, count, at.positions);
            count += 1;
        }
    }
}

//! Which vertices and faces of the input a hierarchy's nodes and faces are.
ghost use Rattle.std.specs.Prelude.{◌≡◌, ◌-◌, ◌<◌, length};
ghost use Rattle.pm_forest.specs.Forest.{node_count};
ghost use Rattle.pm_forest.specs.Faces.{face_count};
ghost use Rattle.pm_forest.specs.Meshes.{input_of_node, face_input};
ghost use Rattle.pm_paint.specs.Inputs.{vertex_told, vertices_by_node, faces_by_face};

use crate::leaves::node_input;
use pm_base::{FaceId, NodeId};
use pm_forest::Hierarchy;

/// What is told of a node that is no vertex of the input.
pub const NO_VERTEX: u32 = 4_294_967_295;

// The vertex of the input that a node is.
fn vertex_of(h: &Hierarchy, node: NodeId) -> u32
    requires { node.0 < node_count h.now }
    ensures { result ≡ vertex_told (input_of_node h.now node.0) }
{
    match node_input(h, node) {
        0 => NO_VERTEX,
        number => number - 1,
    }
}

// The face of the input that a face is.
#[tactic(auto, using(pm_forest::proofs::FaceInputs::some_face_input))]
fn face_of(h: &Hierarchy, f: FaceId) -> u32
    requires { f.0 < face_count h.now }
    ensures { result ≡ face_input h.now f.0 - 1 }
{
    h.invariant();
    h.face_at(f).input - 1
}

/// Writes for each node, by number, the vertex of the input that it is, counted from 0, and
/// NO_VERTEX for a node of more than one leaf. The array has just that room. It costs a pass over
/// the nodes, and takes no memory.
pub fn write_vertices(h: &Hierarchy, by_node: &mut [u32])
    requires { length by_node.old ≡ node_count h.now }
    ensures { by_node.new ≡ vertices_by_node h.now }
{
    for node in 0..h.nodes() {
        by_node[node as usize] = vertex_of(h, NodeId(node));
    }
}

/// Writes for each face, by number, which face of the input it is, counted from 0. The array has
/// just that room. It costs a pass over the faces, and takes no memory.
pub fn write_faces(h: &Hierarchy, by_face: &mut [u32])
    requires { length by_face.old ≡ face_count h.now }
    ensures { by_face.new ≡ faces_by_face h.now }
{
    for f in 0..h.faces() {
        by_face[f as usize] = face_of(h, FaceId(f));
    }
}

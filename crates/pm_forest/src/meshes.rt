//! The meshes that a hierarchy holds, taken out whole.
ghost use Rattle.std.specs.Prelude.{◌≡◌, ℕ, ◌-◌, ◌≤◌, ◌<◌, length, map, IfOk, slice_index_or};
ghost use Rattle.std.specs.List.{range_with_len};
ghost use Rattle.pm_base.specs.Meshes.{mesh_of, IsWellFormed};
ghost use Rattle.pm_forest.specs.Forest.{leaf_count, node_count};
ghost use Rattle.pm_forest.specs.Faces.{faces_of, face_count, corners_of};
ghost use Rattle.pm_forest.specs.Meshes.{
  leaf_place,
  input_of_node,
  leaf_input,
  AreInputVertices,
  face_input,
  leaf_corners,
  input_corners,
  leaf_mesh_of,
  leaf_of_input,
  face_of_input,
  input_place,
  input_face,
  input_mesh_of,
};

use crate::growing::{list_with_room, no_nodes};
use crate::{Face, Hierarchy, OutOfMemory};
use pm_base::{Corners, FaceId, Items, Mesh, NodeId, Points, Triples};
use std::alloc::Global;

// The number of a node among the input's vertices, from 1; 0 for a node of more than one leaf.
fn node_input(h: &Hierarchy, node: NodeId) -> u32
    requires { node.0 < node_count h.now }
    ensures { result ≡ input_of_node h.now node.0 }
{
    let roots = h.roots();
    if node.0 < roots {
        return h.root_at(node.0).input;
    }
    let split = h.record_at((node.0 - roots) / 2);
    if (node.0 - roots) % 2 == 0 {
        split.t.input
    } else {
        split.u.input
    }
}

// The number of a leaf among the input's vertices, from 1.
#[tactic(auto, using(crate::proofs::InputLaws::some_input))]
fn leaf_input(h: &Hierarchy, leaf: u32) -> u32
    requires { leaf < leaf_count h.now }
    ensures value { result ≡ leaf_input h.now leaf }
    ensures some { 0 < result }
{
    h.invariant();
    node_input(h, h.leaf_node(leaf))
}

// The number of a face among the input's faces, from 1.
#[tactic(auto, using(crate::proofs::FaceInputs::some_face_input, crate::proofs::FaceInputs::face_input_most))]
fn face_input(h: &Hierarchy, f: u32) -> u32
    requires { f < face_count h.now }
    ensures value { result ≡ face_input h.now f }
    ensures some { 0 < result }
    ensures most { result ≤ face_count h.now }
{
    h.invariant();
    h.face_at(FaceId(f)).input
}

// The places of all leaves.
fn leaf_points(h: &Hierarchy, alloc: Global) -> Result<Points, OutOfMemory>
    ensures { IfOk result
        (λ points. points.items ≡ map (leaf_place h.now) (range_with_len 0 (leaf_count h.now))) }
{
    let mut points = list_with_room(alloc, h.leaves() as usize)?;
    for leaf in 0..h.leaves() {
        points.push_within_room(h.place(h.leaf_node(leaf)));
    }
    Ok(points)
}

// The corners of all faces, by leaves.
fn leaf_faces(h: &Hierarchy, alloc: Global) -> Result<Triples, OutOfMemory>
    ensures { IfOk result (λ faces. faces.items ≡ map leaf_corners (faces_of h.now)) }
{
    let mut faces = list_with_room(alloc, h.faces() as usize)?;
    for f in 0..h.faces() {
        let Face { a, b, c, .. } = h.face_at(FaceId(f));
        faces.push_within_room(Corners { a, b, c });
    }
    Ok(faces)
}

// The input vertex of each leaf. Faces ask for each leaf about six times and in no order; without
// this table each question would read the leaf's node and then a record.
fn vertices_by_leaf(h: &Hierarchy, alloc: Global) -> Result<Items<u32>, OutOfMemory>
    ensures { IfOk result (λ vertices. AreInputVertices h.now vertices.items) }
{
    let mut vertices = list_with_room(alloc, h.leaves() as usize)?;
    for leaf in 0..h.leaves() {
        vertices.push_within_room(leaf_input(h, leaf) - 1);
    }
    Ok(vertices)
}

// The input vertex of a leaf, out of the table of all.
fn vertex_of(h: &Hierarchy, vertices: &[u32], leaf: u32) -> u32
    requires leaf { leaf < leaf_count h.now }
    requires table { AreInputVertices h.now vertices.now }
    ensures value { result ≡ leaf_input h.now leaf - 1 }
    ensures below { result < leaf_count h.now }
{
    h.invariant();
    vertices[leaf as usize]
}

// The leaf of each input vertex.
fn leaves_by_input(h: &Hierarchy, vertices: &[u32], alloc: Global) -> Result<Vec<u32>, OutOfMemory>
    requires { AreInputVertices h.now vertices.now }
    ensures len { IfOk result (λ leaves. length leaves.items ≡ leaf_count h.now) }
    ensures each { IfOk result
        (λ leaves. (i : ℕ) → i < leaf_count h.now
        → slice_index_or leaves.items i 0 ≡ leaf_of_input h.now i) }
{
    h.invariant();
    let mut leaves = no_nodes(alloc, h.leaves() as usize)?;
    for leaf in 0..h.leaves() {
        leaves[vertex_of(h, vertices, leaf) as usize] = leaf;
    }
    Ok(leaves)
}

// The face of each input face.
fn faces_by_input(h: &Hierarchy, alloc: Global) -> Result<Vec<u32>, OutOfMemory>
    ensures len { IfOk result (λ faces. length faces.items ≡ face_count h.now) }
    ensures each { IfOk result
        (λ faces. (i : ℕ) → i < face_count h.now
        → slice_index_or faces.items i 0 ≡ face_of_input h.now i) }
{
    let mut faces = no_nodes(alloc, h.faces() as usize)?;
    for f in 0..h.faces() {
        faces[face_input(h, f) as usize - 1] = f;
    }
    Ok(faces)
}

// The places of the input's vertices.
fn input_points(h: &Hierarchy, vertices: &[u32], alloc: Global) -> Result<Points, OutOfMemory>
    requires { AreInputVertices h.now vertices.now }
    ensures { IfOk result
        (λ points. points.items ≡ map (input_place h.now) (range_with_len 0 (leaf_count h.now))) }
{
    let leaves = leaves_by_input(h, vertices, alloc)?;
    let mut points = list_with_room(alloc, leaves.len())?;
    for i in 0..leaves.len() {
        points.push_within_room(h.place(h.leaf_node(leaves[i])));
    }
    Ok(points)
}

// The corners of a face, by the input's vertices.
#[tactic(auto, using(crate::proofs::MeshLaws::corners_in))]
fn input_corners(h: &Hierarchy, vertices: &[u32], f: u32) -> Corners
    requires face { f < face_count h.now }
    requires table { AreInputVertices h.now vertices.now }
    ensures { result ≡ input_corners h.now (corners_of h.now f) }
{
    h.invariant();
    let face = h.face_at(FaceId(f));
    Corners {
        a: vertex_of(h, vertices, face.a),
        b: vertex_of(h, vertices, face.b),
        c: vertex_of(h, vertices, face.c),
    }
}

// The corners of the input's faces.
fn input_faces(h: &Hierarchy, vertices: &[u32], alloc: Global) -> Result<Triples, OutOfMemory>
    requires { AreInputVertices h.now vertices.now }
    ensures { IfOk result
        (λ faces. faces.items ≡ map (input_face h.now) (range_with_len 0 (face_count h.now))) }
{
    let numbers = faces_by_input(h, alloc)?;
    let mut faces = list_with_room(alloc, numbers.len())?;
    for i in 0..numbers.len() {
        faces.push_within_room(input_corners(h, vertices, numbers[i]));
    }
    Ok(faces)
}

impl Hierarchy {
    /// The leaf mesh: the places of the leaves, and the corners of all faces by number. It takes
    /// linear time.
    #[tactic(auto, using(crate::proofs::MeshLaws::leaf_mesh_formed), unfolding(crate::specs::Meshes::leaf_mesh_of))]
    pub fn leaf_mesh(&self, alloc: Global) -> Result<Mesh, OutOfMemory>
        ensures mesh { IfOk result (λ mesh. mesh_of mesh ≡ leaf_mesh_of self.now) }
        ensures formed { IsWellFormed (leaf_mesh_of self.now) }
    {
        self.invariant();
        let points = leaf_points(self, alloc)?;
        let faces = leaf_faces(self, alloc)?;
        Ok(Mesh { points, faces })
    }

    /// The input mesh: the mesh that the hierarchy was made from, with its vertices and faces in
    /// their first order. It takes linear time.
    #[tactic(auto, using(crate::proofs::MeshLaws::input_mesh_formed), unfolding(crate::specs::Meshes::input_mesh_of))]
    pub fn input_mesh(&self, alloc: Global) -> Result<Mesh, OutOfMemory>
        ensures mesh { IfOk result (λ mesh. mesh_of mesh ≡ input_mesh_of self.now) }
        ensures formed { IsWellFormed (input_mesh_of self.now) }
    {
        self.invariant();
        let vertices = vertices_by_leaf(self, alloc)?;
        let points = input_points(self, vertices.as_slice(), alloc)?;
        let faces = input_faces(self, vertices.as_slice(), alloc)?;
        Ok(Mesh { points, faces })
    }
}

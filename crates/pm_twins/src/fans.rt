//! Each side is noted at the vertex from which it runs; then one walk round each vertex decides
//! whether its faces are a fan. A side without twin begins an open fan, so a walk starts at one
//! where there is one.
ghost use Rattle.std.specs.Prelude.{◌≡◌, ◌+◌, ◌<◌, ℕ, length, slice_index_or, OnOk, IfOk, IfErr};
ghost use Rattle.pm_base.specs.Meshes.{mesh_of, IsWellFormed};
ghost use Rattle.pm_base.specs.Sides.{net_of, side_count};
ghost use Rattle.pm_base.specs.Fans.{IsOrientedManifold};
ghost use Rattle.pm_twins.specs.Table.{IsTableOf};
ghost use Rattle.pm_twins.specs.Faults.{IsFansFault};
ghost use Rattle.pm_twins.specs.Walks.{with_side, no_vertex, IsKnown};

use crate::half_edges::HalfEdges;
use crate::{OutOfMemory, Twins};
use pm_base::{Mesh, Side};
use std::alloc::Global;

/// Why the faces of a mesh are not all in fans.
#[derive(Clone, Copy, Debug, PartialEq, Eq)]
pub enum FansFail {
    /// The faces at this vertex, the least such, are no fan.
    NotFan(u32),
    /// Want of memory.
    OutOfMemory,
}

/// What is known of a vertex: how many faces have it, and the side from which to walk round it.
#[derive(Clone, Copy)]
pub(crate) struct Vertex {
    pub(crate) degree: u32,
    pub(crate) start: Option<Side>,
}

impl Vertex {
    // What is known once one more side is, which runs from the vertex.
    fn with_side(self, side: Side, is_alone: bool) -> Vertex
        requires { self.degree + 1 < 4294967296 }
        ensures { result ≡ with_side self side is_alone }
    {
        let start = match self.start {
            Some(known) if !is_alone => Some(known),
            _ => Some(side),
        };
        Vertex {
            degree: self.degree + 1,
            start,
        }
    }
}

/// Whether a well-formed mesh, whose twins are given, is an oriented manifold. A vertex that no
/// face uses is permitted. O(F + V) for F faces and V vertices.
pub fn check_fans(alloc: Global, mesh: &Mesh, twins: &Twins) -> Result<(), FansFail>
    requires formed { IsWellFormed (mesh_of mesh.now) }
    requires twins { IsTableOf (net_of mesh.now.faces.items) (length mesh.now.points.items)
        twins.now }
    ensures manifold { OnOk result (IsOrientedManifold (net_of mesh.now.faces.items)) }
    ensures not_fan { IfErr result (IsFansFault (net_of mesh.now.faces.items)) }
{
    let sides = HalfEdges {
        faces: mesh.faces.as_slice(),
        twins: twins.as_side_map(),
    };
    let Ok(vertices) = note_sides(alloc, &sides, mesh.points.len()) else {
        return Err(FansFail::OutOfMemory);
    };
    for v in 0..vertices.len() {
        let vertex = vertices[v];
        if let Some(start) = vertex.start {
            if !sides.is_fan(start, vertex.degree) {
                return Err(FansFail::NotFan(v as u32));
            }
        }
    }
    Ok(())
}

// What the sides say of each vertex.
fn note_sides(alloc: Global, sides: &HalfEdges, count: usize) -> Result<Vec<Vertex>, OutOfMemory>
    requires { (e : ℕ) → e < side_count (net_of sides.now) → (net_of sides.now).from e < count }
    ensures len { IfOk result (λ all. length all.items ≡ count) }
    ensures known { IfOk result (λ all. (v : ℕ) → v < count → let m = net_of sides.now in
        IsKnown m (side_count m) v (slice_index_or all.items v no_vertex)) }
{
    let unused = Vertex {
        degree: 0,
        start: None,
    };
    let mut vertices = vec![in alloc; unused; count]?;
    for number in 0..sides.len() {
        let side = Side(number);
        let v = sides.from(side) as usize;
        vertices[v] = vertices[v].with_side(side, sides.is_alone(side));
    }
    Ok(vertices)
}

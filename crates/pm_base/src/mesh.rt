//! Meshes: points, and faces by the vertices at their corners.
ghost use Rattle.std.specs.Prelude.{◌≡◌, IfOk};
ghost use Rattle.pm_base.specs.Meshes.{mesh_of};

use crate::{Items, OutOfMemory, Points};
use std::alloc::Global;

/// The corners of a face, as vertex numbers from 0, in the face's own cyclic order.
#[derive(Clone, Copy, Debug, PartialEq, Eq)]
pub struct Corners {
    pub a: u32,
    pub b: u32,
    pub c: u32,
}

/// A list of faces by their corners.
pub type Triples = Items<Corners>;

/// A triangle mesh: its points, and the corners of its faces. It is well formed where each corner
/// is the number of a point, the corners of each face differ, and there are at most 1,048,576
/// points and as many faces.
#[derive(Drop)]
pub struct Mesh {
    pub points: Points,
    pub faces: Triples,
}

impl Mesh {
    /// An equal mesh in memory of its own.
    pub fn copy(&self, alloc: Global) -> Result<Mesh, OutOfMemory>
        ensures { IfOk result (λ mesh. mesh_of mesh ≡ mesh_of self.now) }
    {
        let points = self.points.copy(alloc)?;
        let faces = self.faces.copy(alloc)?;
        Ok(Mesh { points, faces })
    }
}

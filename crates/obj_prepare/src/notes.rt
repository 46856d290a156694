//! The numbers of what was done to a mesh.
use pm_turn::TurnCounts;

/// What was done to triangles, in numbers.
#[derive(Clone, Copy, Debug, PartialEq, Eq)]
pub struct Notes {
    /// Vertices that were joined to an earlier one at the same place.
    pub joined: u32,
    /// Triangles of which two corners became one vertex.
    pub flat: u32,
    /// Triangles whose three corners are those of an earlier one.
    pub double: u32,
    /// How many triangles were turned round, and what is told of those that weren't.
    pub turns: TurnCounts,
    /// Sides along which the surface was cut open.
    pub cut: u32,
    /// New vertices, beyond those that the triangles had which stayed.
    pub split: u32,
    /// Vertices that no triangle names.
    pub unnamed: u32,
    /// Vertices that stand for themselves, and of whose triangles none stayed.
    pub gone: u32,
}

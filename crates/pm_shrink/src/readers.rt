//! What is read of a surface that shrinks.
ghost use Rattle.std.specs.Prelude.{◌≡◌, ◌<◌, ◌≤◌, ◌↔◌, true, IfSome, IsTrue};
ghost use Rattle.std.specs.Option.{option_map};
ghost use Rattle.pm_base.specs.declared.limits.TheConstants.{MOST_SIDES};
ghost use Rattle.pm_base.specs.Sides.{side_count, Stands, twin_of};
ghost use Rattle.pm_links.specs.Lists.{first_of, after};
ghost use Rattle.pm_runs.specs.Surfaces.{next_vertex as next_vertex_of, is_live as is_live_in};
ghost use Rattle.pm_runs.specs.Surfaces.{place_at, face_count_of};
ghost use Rattle.pm_shrink.specs.Shrinking.{net_at, fan_at, IsKept};

use crate::Shrink;
use pm_base::{Point, Side};

impl Shrink {
    /// What the type keeps, as a law: the call takes no step.
    pub fn invariant(&self)
        ensures kept { IsKept self.now }
        ensures few_sides { side_count (net_at self.now) ≤ MOST_SIDES }
    {
        let _ = &self.tables.faces;
    }

    /// The number of faces still there.
    pub fn face_count(&self) -> u32
        ensures { result ≡ face_count_of self.now.surface }
    {
        self.tables.face_count
    }

    /// The number that the next vertex takes.
    pub fn next_vertex(&self) -> u32
        ensures { result ≡ next_vertex_of self.now.surface }
    {
        self.tables.next
    }

    /// Whether a number, which may be any, is that of a live vertex.
    pub fn is_live(&self, v: u32) -> bool
        ensures { result ≡ is_live_in self.now.surface v }
    {
        (v as usize) < self.tables.places.len() && self.tables.places[v as usize].is_some()
    }

    /// The place of a live vertex.
    pub fn place(&self, v: u32) -> Point
        requires { is_live_in self.now.surface v ≡ true }
        ensures { result ≡ place_at self.now.surface v }
    {
        self.tables.places[v as usize].unwrap()
    }

    /// The first corner of the list of a live vertex, and none exactly where no face that is still
    /// there has the vertex. Corner `i` of face `f` has the number `3f + i`.
    pub fn first_corner(&self, v: u32) -> Option<Side>
        requires { is_live_in self.now.surface v ≡ true }
        ensures value { option_map (λ c. c.0) result ≡ first_of (fan_at self.now v) }
        ensures stands { IfSome result (λ c. Stands (net_at self.now) c.0
            × ((net_at self.now).from c.0 ≡ v)) }
    {
        self.tables.corners.first(v).map(Side)
    }

    /// The corner after this one in the list of its vertex, and none exactly at the last. With
    /// `first_corner` it walks each corner at a vertex once.
    pub fn next_corner(&self, corner: Side) -> Option<Side>
        requires { Stands (net_at self.now) corner.0 }
        ensures value { option_map (λ c. c.0) result
            ≡ first_of (after corner.0 (fan_at self.now ((net_at self.now).from corner.0))) }
        ensures stands { IfSome result (λ c. Stands (net_at self.now) c.0
            × ((net_at self.now).from c.0 ≡ (net_at self.now).from corner.0)) }
    {
        self.tables.corners.next(corner.0).map(Side)
    }

    /// Whether the face of a side is still there.
    pub fn is_there(&self, side: Side) -> bool
        requires { side.0 < side_count (net_at self.now) }
        ensures { IsTrue result ↔ Stands (net_at self.now) side.0 }
    {
        self.tables.corners.head_of(side.0).is_some()
    }

    /// The vertex at a corner of a face that is still there.
    pub fn vertex_at(&self, corner: Side) -> u32
        requires { Stands (net_at self.now) corner.0 }
        ensures { result ≡ (net_at self.now).from corner.0 }
    {
        self.tables.faces.from(corner)
    }

    /// What stands across a side of a face that is still there, and none exactly where nothing
    /// does.
    pub fn across(&self, side: Side) -> Option<Side>
        requires { Stands (net_at self.now) side.0 }
        ensures { option_map (λ s. s.0) result ≡ twin_of (net_at self.now) side.0 }
    {
        self.tables.faces.across(side)
    }
}

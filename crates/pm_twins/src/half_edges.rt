//! Walks from side to side round a vertex.
ghost use Rattle.std.specs.Prelude.{◌≡◌, ◌<◌, ◌≤◌, ◌↔◌, IsTrue, is_none};
ghost use Rattle.std.specs.Option.{option_map};
ghost use Rattle.pm_base.specs.declared.limits.TheConstants.{MOST_SIDES};
ghost use Rattle.pm_base.specs.Sides.{net_of, side_count, Stands, twin_of, around as around_of};
ghost use Rattle.pm_base.specs.Fans.{IsFan};
ghost use Rattle.pm_twins.specs.Walks.{degree as degree_of, IsStart};

use crate::sides;
use pm_base::{Corners, Side, SideMap};
use std::marker::Model;

/// The faces of a mesh with the twins of their sides, so that one can walk round a vertex.
/// Contracts see the faces.
#[derive(Drop)]
pub(crate) struct HalfEdges<'a> {
    pub(crate) faces: &'a [Corners],
    pub(crate) twins: &'a SideMap,
}

impl<'a> Model for HalfEdges<'a> {
    ghost use Rattle.std.specs.Prelude.{List};
    ghost use Rattle.pm_base.specs.declared.mesh.Corners.{Corners as Face};
    ghost use Rattle.pm_base.specs.Sides.{net_of};
    ghost use Rattle.pm_twins.specs.Walks.{IsWalkable};

    ghost Value = { List Face };

    ghost view = { λ s. s.faces.now };

    ghost invariant = { λ s. IsWalkable (net_of s.faces.now) s.twins.now };
}

impl HalfEdges<'_> {
    /// How many sides there are.
    pub(crate) fn len(&self) -> u32
        ensures value { result ≡ side_count (net_of self.now) }
        ensures small { result ≤ MOST_SIDES }
    {
        self.twins.len()
    }

    /// The vertex from which a side runs.
    pub(crate) fn from(&self, side: Side) -> u32
        requires { side.0 < side_count (net_of self.now) }
        ensures value { result ≡ (net_of self.now).from side.0 }
        ensures stands { Stands (net_of self.now) side.0 }
    {
        sides::from(self.faces, side)
    }

    /// Whether a side has no twin.
    pub(crate) fn is_alone(&self, side: Side) -> bool
        requires { side.0 < side_count (net_of self.now) }
        ensures { result ≡ is_none (twin_of (net_of self.now) side.0) }
    {
        self.twins.get(side).is_none()
    }

    /// The next side round the vertex from which a side runs.
    fn around(&self, side: Side) -> Option<Side>
        requires { side.0 < side_count (net_of self.now) }
        ensures { option_map (λ s. s.0) result ≡ around_of (net_of self.now) side.0 }
    {
        self.twins.get(side.prev())
    }

    /// Whether the faces at the vertex from which side `start` runs, `degree` in number, are a fan.
    ///
    /// The walk goes from side to side until there is no next one, or it is `start`. As `start` is
    /// the first of an open fan, or any of a closed one, the faces are a fan where the walk has
    /// passed them all. It meets no side twice, so it ends before the sides run out.
    pub(crate) fn is_fan(&self, start: Side, degree: u32) -> bool
        requires in_range { start.0 < side_count (net_of self.now) }
        requires start { IsStart (net_of self.now) start.0 }
        requires degree { degree ≡ degree_of (net_of self.now) ((net_of self.now).from start.0) }
        ensures { IsTrue result ↔ IsFan (net_of self.now) ((net_of self.now).from start.0) }
    {
        let mut at = start;
        let mut passed: u32 = 1;
        for _step in 0..self.twins.len() {
            match self.around(at) {
                None => return passed == degree,
                Some(side) if side == start => return passed == degree && passed >= 3,
                Some(side) => at = side,
            }
            passed += 1;
        }
        false
    }
}

//! How large the complete mesh is, and how fine the mesh that is shown.
ghost use Rattle.std.specs.Prelude.{◌≡◌, ◌<◌};
ghost use Rattle.std.specs.Int.{int_min, int_max};
ghost use Rattle.pm_base.specs.Place.{origin};
ghost use Rattle.pm_base.specs.Counts.{set_of};
ghost use Rattle.pm_forest.specs.Forest.{leaf_count};
ghost use Rattle.pm_forest.specs.Meshes.{leaf_place};
ghost use Rattle.pm_session.specs.Level.{split_count, greatest_error, greatest_deviation};
ghost use Rattle.pm_viewer.specs.Measuring.{coordinates_at, lower, upper, extent_at, grown};
ghost use Rattle.pm_viewer.specs.Measuring.{mesh_extent};

use crate::viewer::Viewer;
use pm_base::Point;
use pm_forest::Hierarchy;
use pm_session::Level;

/// Three coordinates, in units.
#[derive(Clone, Copy, Debug, PartialEq, Eq)]
pub struct Coordinates {
    pub x: i32,
    pub y: i32,
    pub z: i32,
}

// The lesser of two coordinates.
fn lesser(a: i32, b: i32) -> i32
    ensures { result ≡ int_min a b }
{
    a.min(b)
}

// The greater of two coordinates.
fn greater(a: i32, b: i32) -> i32
    ensures { result ≡ int_max a b }
{
    a.max(b)
}

impl Coordinates {
    // Those of a place.
    fn at(p: Point) -> Coordinates
        ensures { result ≡ coordinates_at p }
    {
        Coordinates {
            x: p.x(),
            y: p.y(),
            z: p.z(),
        }
    }

    // On each axis the lesser of this and that of a place.
    fn lower(self, p: Point) -> Coordinates
        ensures { result ≡ lower self p }
    {
        Coordinates {
            x: lesser(self.x, p.x()),
            y: lesser(self.y, p.y()),
            z: lesser(self.z, p.z()),
        }
    }

    // On each axis the greater of the two.
    fn upper(self, p: Point) -> Coordinates
        ensures { result ≡ upper self p }
    {
        Coordinates {
            x: greater(self.x, p.x()),
            y: greater(self.y, p.y()),
            z: greater(self.z, p.z()),
        }
    }
}

/// The bounding box of places: on each axis the least and the greatest coordinate.
#[derive(Clone, Copy, Debug, PartialEq, Eq)]
pub struct Extent {
    pub low: Coordinates,
    pub high: Coordinates,
}

impl Extent {
    // That of one place.
    fn at(p: Point) -> Extent
        ensures { result ≡ extent_at p }
    {
        Extent {
            low: Coordinates::at(p),
            high: Coordinates::at(p),
        }
    }

    // The least one that has this one and a place in it.
    fn with(self, p: Point) -> Extent
        ensures { result ≡ grown self p }
    {
        Extent {
            low: self.low.lower(p),
            high: self.high.upper(p),
        }
    }

    // 0 on each axis.
    fn none() -> Extent
        ensures { result ≡ extent_at origin }
    {
        let zero = Coordinates { x: 0, y: 0, z: 0 };
        Extent {
            low: zero,
            high: zero,
        }
    }
}

// The place of a leaf.
fn leaf_place(h: &Hierarchy, leaf: u32) -> Point
    requires { leaf < leaf_count h.now }
    ensures { result ≡ leaf_place h.now leaf }
{
    h.place(h.leaf_node(leaf))
}

// The bounding box of the complete mesh, all 0 where that has no vertex.
#[tactic(auto, unfolding(crate::specs::Measuring::extent_of, crate::specs::Measuring::grown_by), using(crate::proofs::MeasuringLaws::extent_next))]
fn mesh_extent(h: &Hierarchy) -> Extent
    ensures { result ≡ mesh_extent h.now }
{
    if h.leaves() == 0 {
        return Extent::none();
    }
    let mut extent = Extent::at(leaf_place(h, 0));
    for leaf in 1..h.leaves() {
        extent = extent.with(leaf_place(h, leaf));
    }
    extent
}

impl Viewer {
    /// The bounding box of the complete mesh, all 0 where that has no vertex. It costs a pass over
    /// the leaves.
    pub fn extent(&self) -> Extent
        ensures { result ≡ mesh_extent self.now.shown.h }
    {
        mesh_extent(self.hierarchy())
    }

    /// How fine the mesh that is shown is: how many records are split, and the greatest error and
    /// the greatest deviation of a node shown, in units, as the line `l` tells them. It costs a
    /// pass over the records and two over the nodes.
    pub fn level(&self) -> Level
        ensures split { result.split ≡ split_count self.now.shown.h (set_of self.now.shown.flags) }
        ensures error { result.error
            ≡ greatest_error self.now.shown.h (set_of self.now.shown.flags) }
        ensures deviation { result.deviation
            ≡ greatest_deviation self.now.shown.h (set_of self.now.shown.flags) }
    {
        self.session().level()
    }
}

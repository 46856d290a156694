//! The headings of the border of the leaf mesh: its sides without a twin.
ghost use Rattle.std.specs.Prelude.{◌≡◌, ◌<◌, ◌*◌, nat_lt, IfOk, IfSome, length};
ghost use Rattle.pm_base.specs.Meshes.{mesh_of, IsWellFormed};
ghost use Rattle.pm_base.specs.Sides.{net_of, NoSideTwice};
ghost use Rattle.pm_twins.specs.Table.{IsTableOf};
ghost use Rattle.pm_forest.specs.Forest.{leaf_count};
ghost use Rattle.pm_forest.specs.Faces.{face_count, from_leaf, to_leaf};
ghost use Rattle.pm_beyond.specs.Walks.{leaf_net};
ghost use Rattle.pm_deviation.specs.Normals.{unit_box};
ghost use Rattle.pm_deviation.specs.Borders.{has_border};
ghost use Rattle.pm_deviation.specs.Lines.{side_way, line_spread_of};
ghost use Rattle.pm_deviation.specs.Tables.{IsHeading, AreHeadings, HaveSpreads};

use crate::OutOfMemory;
use crate::heading::Heading;
use crate::leaves::{leaf_point, side_leaves};
use crate::parts::unit_box;
use crate::way::Way;
use pm_base::{Mesh, Side};
use pm_forest::Hierarchy;
use pm_twins::{Twins, TwinsFail};
use std::alloc::{AllocError, Global};

// The twins of a mesh in which no directed side stands twice, so that memory alone can be wanting.
fn twins_of(alloc: Global, mesh: &Mesh) -> Result<Twins, OutOfMemory>
    requires formed { IsWellFormed (mesh_of mesh.now) }
    requires once { NoSideTwice (net_of mesh.now.faces.items) }
    ensures { IfOk result
        (IsTableOf (net_of mesh.now.faces.items) (length mesh.now.points.items)) }
{
    match Twins::of(alloc, mesh) {
        Ok(twins) => Ok(twins),
        Err(TwinsFail::EdgeTwice(_) | TwinsFail::OutOfMemory) => Err(AllocError),
    }
}

// The twins of the leaf mesh.
fn leaf_twins(alloc: Global, h: &Hierarchy) -> Result<Twins, OutOfMemory>
    requires { NoSideTwice (leaf_net h.now) }
    ensures { IfOk result (IsTableOf (leaf_net h.now) (leaf_count h.now)) }
{
    let mesh = h.leaf_mesh(alloc)?;
    twins_of(alloc, &mesh)
}

// The heading of a side: its direction.
fn side_heading(h: &Hierarchy, side: Side) -> Heading
    requires { side.0 < 3 * face_count h.now }
    ensures is { IsHeading h.now result }
    ensures from { result.a ≡ from_leaf h.now side.0 }
    ensures to { result.b ≡ to_leaf h.now side.0 }
    ensures twice { result.c ≡ to_leaf h.now side.0 }
    ensures parts { result.parts ≡ unit_box (side_way h.now side.0) }
{
    let (from, to) = side_leaves(h, side);
    let direction = Way::to(leaf_point(h, to), leaf_point(h, from));
    Heading {
        a: from,
        b: to,
        c: to,
        parts: unit_box(direction.x, direction.y, direction.z),
    }
}

/// The headings of the border sides, 40 bytes a side.
pub(crate) fn border_headings(alloc: Global, h: &Hierarchy) -> Result<Vec<Heading>, OutOfMemory>
    requires { NoSideTwice (leaf_net h.now) }
    ensures are { IfOk result (λ headings. AreHeadings h.now headings.items) }
    ensures spreads { IfOk result (λ headings.
        HaveSpreads h.now (line_spread_of h.now) headings.items) }
    ensures border { IfOk result (λ headings. nat_lt 0 (length headings.items)
        ≡ has_border h.now) }
{
    let twins = leaf_twins(alloc, h)?;
    let mut headings = Vec::new(alloc);
    for side in 0..3 * h.faces() {
        if twins.twin(Side(side)).is_none() {
            headings.push(side_heading(h, Side(side)))?;
        }
    }
    Ok(headings)
}

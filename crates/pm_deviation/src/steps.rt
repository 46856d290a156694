//! How much farther from the planes and lines under a child its parent's place may be.
ghost use Rattle.std.specs.Prelude.{◌≡◌, ◌<◌, ◌≤◌, ◌+◌, ◌*◌, unsigned_abs};
ghost use Rattle.pm_base.specs.Geometry.{square_of};
ghost use Rattle.pm_base.specs.Rounded.{root_up};
ghost use Rattle.pm_forest.specs.Forest.{node_count};
ghost use Rattle.pm_deviation.specs.Spreads.{along, most_of, most_along};
ghost use Rattle.pm_deviation.specs.Normals.{spread_of};
ghost use Rattle.pm_deviation.specs.Lines.{way, line_spread_of};
ghost use Rattle.pm_deviation.specs.Farthest.{way_along};
ghost use Rattle.pm_deviation.specs.Deviations.{across, plane_step, line_step};
ghost use Rattle.pm_deviation.specs.Tables.{IsSum, AreSpaceSpreads};

use crate::roots::{root_down, root_up};
use crate::space_spreads::SpaceSpreads;
use crate::unit_box::UnitBox;
use crate::way::Way;
use pm_base::{NodeId, Point, dist_up, dist2};
use pm_forest::Hierarchy;

// How far from 0 the products of a way with the vectors of a box are at most.
fn most(parts: &UnitBox, x: i64, y: i64, z: i64) -> u64
    requires box_x { IsSum parts.now.x }
    requires box_y { IsSum parts.now.y }
    requires box_z { IsSum parts.now.z }
    requires x_small { unsigned_abs x ≤ 65534 }
    requires y_small { unsigned_abs y ≤ 65534 }
    requires z_small { unsigned_abs z ≤ 65534 }
    ensures value { result ≡ most_of (along parts.now (record { x = x; y = y; z = z })) }
    ensures small { result ≤ 9663381504 }
{
    let (low, high) = parts.along(x, y, z);
    low.unsigned_abs().max(high.unsigned_abs())
}

// The most that the way from q to p can go along directions of a box.
fn most_along(parts: &UnitBox, p: Point, q: Point) -> u64
    requires x_small { IsSum parts.now.x }
    requires y_small { IsSum parts.now.y }
    requires z_small { IsSum parts.now.z }
    ensures value { result ≡ most_along parts.now (way p q) }
    ensures small { result ≤ 589806 }
{
    let d = Way::to(p, q);
    most(parts, d.x, d.y, d.z).div_ceil(16_384)
}

/// The most that the way from q to p can go along vectors of a box. It is no longer than the way.
pub(crate) fn way_along(parts: &UnitBox, p: Point, q: Point) -> u32
    requires x_small { IsSum parts.now.x }
    requires y_small { IsSum parts.now.y }
    requires z_small { IsSum parts.now.z }
    ensures value { result ≡ way_along parts.now p q }
    ensures small { result ≤ 113509 }
{
    let most = most_along(parts, p, q);
    // The root is dear, and seldom the lesser of the two.
    if most * most <= dist2(p, q) {
        most as u32
    } else {
        dist_up(p, q)
    }
}

// The length of a vector, rounded up.
fn length(x: u64, y: u64, z: u64) -> u64
    requires x_small { x ≤ 9663381504 }
    requires y_small { y ≤ 9663381504 }
    requires z_small { z ≤ 9663381504 }
    ensures { result ≡ root_up (square_of x + square_of y + square_of z) }
{
    let (x, y, z) = (u128::from(x), u128::from(y), u128::from(z));
    let square = x * x + y * y + z * z;
    root_up(square, root_down(square))
}

// The most that the way from q to p can go across directions of a box.
fn across(parts: &UnitBox, p: Point, q: Point) -> u64
    requires x_small { IsSum parts.now.x }
    requires y_small { IsSum parts.now.y }
    requires z_small { IsSum parts.now.z }
    ensures { result ≡ across parts.now (way p q) }
{
    let d = Way::to(p, q);
    let about_x = most(parts, 0, -d.z, d.y);
    let about_y = most(parts, d.z, 0, -d.x);
    let about_z = most(parts, -d.y, d.x, 0);
    length(about_x, about_y, about_z).div_ceil(16_384)
}

/// The most that the way from a child to its parent can go along the normals under the child.
pub(crate) fn plane_step(
    h: &Hierarchy,
    spreads: &SpaceSpreads,
    parent: NodeId,
    child: NodeId,
) -> u64
    requires spreads { AreSpaceSpreads h.now (spread_of h.now) spreads.now.x.items
        spreads.now.y.items spreads.now.z.items }
    requires parent { parent.0 < node_count h.now }
    requires child { child.0 < node_count h.now }
    ensures value { result ≡ plane_step h.now parent.0 child.0 }
    ensures small { result ≤ 113509 }
{
    let p = h.place(parent);
    let q = h.place(child);
    u64::from(way_along(&spreads.under(child), p, q))
}

/// The most that it can go across the border sides under the child.
pub(crate) fn line_step(h: &Hierarchy, spreads: &SpaceSpreads, parent: NodeId, child: NodeId) -> u64
    requires spreads { AreSpaceSpreads h.now (line_spread_of h.now) spreads.now.x.items
        spreads.now.y.items spreads.now.z.items }
    requires parent { parent.0 < node_count h.now }
    requires child { child.0 < node_count h.now }
    ensures value { result ≡ line_step h.now parent.0 child.0 }
    ensures small { result ≤ 113509 }
{
    let p = h.place(parent);
    let q = h.place(child);
    let most = across(&spreads.under(child), p, q);
    u64::from(dist_up(p, q)).min(most)
}

//! Sums over the places of the leaves under a node. The leaves under a node stand in a row, so that
//! its sum is the difference of two totals.
ghost use Rattle.std.specs.Prelude.{◌≡◌, ◌≤◌, ◌<◌, ◌*◌, ◌^◌, unsigned_abs, IfOk};
ghost use Rattle.pm_forest.specs.Forest.{node_count};
ghost use Rattle.pm_fit.specs.Fit.{IsSpot};
ghost use Rattle.pm_fits.specs.Fits.{raised, spot_of, place_terms, places_under};
ghost use Rattle.pm_fits.specs.Sums.{plus_places, less_places, ArePlacesWithin, ArePlacesUpTo};
ghost use Rattle.pm_fits.specs.Sums.{ArePlaceTotals};

use crate::OutOfMemory;
use pm_base::{Items, NodeId};
use pm_fit::{PlaceSums, Spot};
use pm_forest::Hierarchy;
use std::alloc::Global;

// A coordinate with 32,767 added.
fn raised(c: i32) -> u32
    requires { unsigned_abs c ≤ 32767 }
    ensures value { result ≡ raised c }
    ensures small { result ≤ 65534 }
{
    (c + 32_767).unsigned_abs()
}

/// The place of a node, each coordinate with 32,767 added.
#[tactic(auto, unfolding(crate::specs::Fits::spot_of))]
pub(crate) fn spot(h: &Hierarchy, node: NodeId) -> Spot
    requires { node.0 < node_count h.now }
    ensures value { result ≡ spot_of h.now node.0 }
    ensures small { IsSpot result }
{
    let place = h.place(node);
    Spot {
        x: raised(place.x()),
        y: raised(place.y()),
        z: raised(place.z()),
    }
}

// A product of two coordinates.
fn product(a: u32, b: u32) -> u64
    requires a { a ≤ 65534 }
    requires b { b ≤ 65534 }
    ensures value { result ≡ a * b }
    ensures small { result ≤ 2 ^ 32 }
{
    u64::from(a) * u64::from(b)
}

// The terms of a place in sums over places.
#[tactic(auto, unfolding(crate::specs::Fits::place_terms))]
fn place_terms(p: &Spot) -> PlaceSums
    requires { IsSpot p.now }
    ensures value { result ≡ place_terms p.now }
    ensures small { ArePlacesWithin 65534 (2 ^ 32) result }
{
    PlaceSums {
        x: u64::from(p.x),
        y: u64::from(p.y),
        z: u64::from(p.z),
        xx: product(p.x, p.x),
        xy: product(p.x, p.y),
        xz: product(p.x, p.z),
        yy: product(p.y, p.y),
        yz: product(p.y, p.z),
        zz: product(p.z, p.z),
    }
}

fn plus(a: &PlaceSums, b: &PlaceSums) -> PlaceSums
    requires a { ArePlacesWithin 65534 (2 ^ 32) a.now }
    requires b { ArePlacesWithin (2 ^ 60) (2 ^ 60) b.now }
    ensures { result ≡ plus_places a.now b.now }
{
    PlaceSums {
        x: a.x + b.x,
        y: a.y + b.y,
        z: a.z + b.z,
        xx: a.xx + b.xx,
        xy: a.xy + b.xy,
        xz: a.xz + b.xz,
        yy: a.yy + b.yy,
        yz: a.yz + b.yz,
        zz: a.zz + b.zz,
    }
}

fn less(a: &PlaceSums, b: &PlaceSums) -> PlaceSums
    requires { ArePlacesUpTo a.now b.now }
    ensures { result ≡ less_places a.now b.now }
{
    PlaceSums {
        x: a.x - b.x,
        y: a.y - b.y,
        z: a.z - b.z,
        xx: a.xx - b.xx,
        xy: a.xy - b.xy,
        xz: a.xz - b.xz,
        yy: a.yy - b.yy,
        yz: a.yz - b.yz,
        zz: a.zz - b.zz,
    }
}

const NOTHING: PlaceSums = PlaceSums {
    x: 0,
    y: 0,
    z: 0,
    xx: 0,
    xy: 0,
    xz: 0,
    yy: 0,
    yz: 0,
    zz: 0,
};

/// The sums over the leaves before each leaf, and over all.
pub(crate) fn place_totals(alloc: Global, h: &Hierarchy) -> Result<Items<PlaceSums>, OutOfMemory>
    ensures { IfOk result (λ totals. ArePlaceTotals h.now totals.items) }
{
    h.invariant();
    let mut totals = Items::new(alloc);
    totals.reserve(h.leaves() as usize + 1)?;
    let mut total = NOTHING;
    totals.push_within_room(total);
    for leaf in 0..h.leaves() {
        total = plus(&place_terms(&spot(h, h.leaf_node(leaf))), &total);
        totals.push_within_room(total);
    }
    Ok(totals)
}

/// The sums over the leaves under a node, by these totals.
pub(crate) fn places_under(h: &Hierarchy, totals: &[PlaceSums], node: NodeId) -> PlaceSums
    requires node { node.0 < node_count h.now }
    requires totals { ArePlaceTotals h.now totals.now }
    ensures { result ≡ places_under h.now node.0 }
{
    h.invariant();
    let (from, until) = h.interval(node);
    less(&totals[until as usize], &totals[from as usize])
}

//! The plane through a node by the nodes round it. Numbers are modulo 2^64, as of two's complement.
ghost use Rattle.std.specs.Prelude.{◌≡◌, ◌≤◌, ◌<◌, ◌==◌};
ghost use Rattle.pm_pack.specs.Planes.{minus, times, way, no_way, way_to, both, cross, size};
ghost use Rattle.pm_pack.specs.Grids.{place_of};
ghost use Rattle.pm_pack.specs.Planes.{is_below, falls, is_steep, slope, rise, level, normal};
ghost use Rattle.pm_pack.specs.Planes.{node_at};

use crate::grid::{place_of, word_of};
use crate::past::{Node, node_at};
use crate::ring::Spoke;

const HALF: u64 = 1 << 63;

/// A way along the three axes.
#[derive(Clone, Copy)]
pub(crate) struct Way {
    pub(crate) x: u64,
    pub(crate) y: u64,
    pub(crate) z: u64,
}

const NO_WAY: Way = Way { x: 0, y: 0, z: 0 };

impl Way {
    // The sum of two.
    #[tactic(auto, unfolding(crate::specs::Planes::both))]
    fn both(self, other: Way) -> Way
        ensures { result ≡ both self other }
    {
        Way {
            x: self.x.wrapping_add(other.x),
            y: self.y.wrapping_add(other.y),
            z: self.z.wrapping_add(other.z),
        }
    }

    // Their cross product.
    #[tactic(auto, unfolding(crate::specs::Planes::cross))]
    fn cross(self, other: Way) -> Way
        ensures { result ≡ cross self other }
    {
        Way {
            x: area(self.y, other.z, self.z, other.y),
            y: area(self.z, other.x, self.x, other.z),
            z: area(self.x, other.y, self.y, other.x),
        }
    }

    // Whether the plane with this normal rises by more than four times the way along x or y.
    #[tactic(auto, unfolding(crate::specs::Planes::is_steep))]
    fn is_steep(self) -> bool
        ensures { result ≡ is_steep self }
    {
        self.z == 0 || size(self.z) < size(self.x) / 4 || size(self.z) < size(self.y) / 4
    }

    // How far a way goes along this normal but for the axis z.
    fn slope(self, way: Way) -> u64
        ensures { result ≡ slope self way }
    {
        (self.x)
            .wrapping_mul(way.x)
            .wrapping_add(self.y.wrapping_mul(way.y))
    }

    // How far the plane with this normal rises or falls on a way.
    #[tactic(auto, unfolding(crate::specs::Planes::rise))]
    fn rise(self, way: Way) -> u32
        requires { 0 < size self.z }
        ensures value { result ≡ rise self way }
        ensures most { result ≤ 65535 }
    {
        (size(self.slope(way)) / size(self.z)).min(65_535) as u32
    }

    // Whether it falls.
    fn falls(self, way: Way) -> bool
        ensures { result ≡ falls self way }
    {
        if is_below(self.slope(way)) {
            is_below(self.z)
        } else {
            !is_below(self.z)
        }
    }

    /// The coordinate of the plane with this normal through a node at the end of a way along x and
    /// y, and another word where it is steep.
    #[tactic(auto, unfolding(crate::specs::Planes::level, crate::specs::Planes::is_steep))]
    pub(crate) fn level(self, node: Node, way: Way, other: u32) -> u32
        ensures { result ≡ level self node way other }
    {
        if self.is_steep() {
            return other;
        }
        let place = place_of(node.z);
        let rise = self.rise(way);
        if self.falls(way) {
            word_of(place.saturating_sub(rise))
        } else {
            word_of(place + rise)
        }
    }
}

// The difference of two products.
fn area(a: u64, b: u64, c: u64, d: u64) -> u64
    ensures { result ≡ minus (times a b) (times c d) }
{
    a.wrapping_mul(b).wrapping_sub(c.wrapping_mul(d))
}

// How far a number is from 0.
fn size(n: u64) -> u64
    ensures { result ≡ size n }
{
    if n < HALF { n } else { u64::MAX - n + 1 }
}

fn is_below(n: u64) -> bool
    ensures { result ≡ is_below n }
{
    n >= HALF
}

/// The way from one node to another.
#[tactic(auto, unfolding(crate::specs::Planes::way_to))]
pub(crate) fn way_to(from: Node, to: Node) -> Way
    ensures { result ≡ way_to from to }
{
    Way {
        x: step(from.x, to.x),
        y: step(from.y, to.y),
        z: step(from.z, to.z),
    }
}

// The difference of two coordinates.
fn step(from: u32, to: u32) -> u64
    ensures { result ≡ minus (place_of to) (place_of from) }
{
    u64::from(place_of(to)).wrapping_sub(u64::from(place_of(from)))
}

/// The normal of the faces round a node: the sum of the cross products of neighbouring ways.
pub(crate) fn normal(nodes: &[Node], node: Node, ring: &[Spoke]) -> Way
    ensures { result ≡ normal nodes.now node ring.now }
{
    let mut sum = NO_WAY;
    let mut before = NO_WAY;
    for spoke in ring {
        let way = way_to(node, node_at(nodes, spoke.node as usize));
        sum = sum.both(before.cross(way));
        before = way;
    }
    sum
}

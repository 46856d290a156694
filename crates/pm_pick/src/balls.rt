//! Which balls a ray meets.
ghost use Rattle.std.specs.Prelude.{◌≡◌, ◌≤◌, ◌<◌, ◌^◌, ◌+◌, ◌*◌, ◌||◌, ℕ};
ghost use Rattle.std.specs.Prelude.{nat_lt, false, unsigned_abs};
ghost use Rattle.pm_base.specs.Geometry.{norm2_of, square_of};
ghost use Rattle.pm_base.specs.Sides.{face_of};
ghost use Rattle.pm_forest.specs.Forest.{node_count, Holds};
ghost use Rattle.pm_forest.specs.Faces.{face_count, from_leaf};
ghost use Rattle.pm_bounds.specs.Bounds.{AreBoundsOf};
ghost use Rattle.pm_pick.specs.declared.limits.TheConstants.{GREATEST_WAY_COMPONENT};
ghost use Rattle.pm_pick.specs.Balls.{is_aside, is_behind, is_ball_met, is_met};
ghost use Rattle.pm_pick.specs.Picks.{MissesFace};

use crate::Ray;
use crate::ways::{dot_of, norm2_of, product_of};
use pm_base::{NodeId, Point};
use pm_bounds::Bounds;
use pm_forest::Hierarchy;
use pm_view::Steps;
use std::sync::ledger::Ledger;

// A square that is far from overflow.
fn square(n: u64) -> u128
    requires { n ≤ 2 ^ 38 }
    ensures value { result ≡ n * n }
    ensures small { result ≤ 2 ^ 76 }
{
    u128::from(n) * u128::from(n)
}

// The square of a number of the way.
fn square_of_component(a: i32) -> u64
    requires { unsigned_abs a ≤ GREATEST_WAY_COMPONENT }
    ensures value { result ≡ square_of (unsigned_abs a) }
    ensures small { result ≤ 2 ^ 31 }
{
    let size = u64::from(a.unsigned_abs());
    size * size
}

// Whether a ball with this radius is aside: n is the squared length of the ray's way, and far that
// of its product with the way to the ball's middle.
fn is_too_far(far: u128, n: u64, radius: u64) -> bool
    requires n_small { n ≤ 2 ^ 34 }
    requires radius_small { radius ≤ 2 ^ 38 }
    ensures { result ≡ nat_lt (radius * radius * n) far }
{
    square(radius) * u128::from(n) < far
}

impl Ray {
    // The squared length of the way.
    fn squared_length(&self) -> u64
        ensures value { result ≡ norm2_of self.now.way }
        ensures small { result ≤ 2 ^ 34 }
    {
        square_of_component(self.way.x)
            + square_of_component(self.way.y)
            + square_of_component(self.way.z)
    }

    // Whether the line of the ray passes the ball by.
    fn is_aside(&self, p: Point, radius: u64) -> bool
        requires { radius ≤ 2 ^ 38 }
        ensures { result ≡ is_aside p radius self.now }
    {
        let far = norm2_of(product_of(self.way_to(p), self.way()));
        is_too_far(far, self.squared_length(), radius)
    }

    // Whether the ball lies behind the origin.
    fn is_behind(&self, p: Point, radius: u64) -> bool
        requires { radius ≤ 2 ^ 38 }
        ensures { result ≡ is_behind p radius self.now }
    {
        dot_of(self.way_to(p), self.way()) < 0 && square(radius) < norm2_of(self.way_to(p))
    }

    fn meets(&self, p: Point, radius: u64) -> bool
        requires { radius ≤ 2 ^ 38 }
        ensures { result ≡ is_ball_met p radius self.now }
    {
        let is_missed = self.is_aside(p, radius) || self.is_behind(p, radius);
        !is_missed
    }
}

fn is_met(h: &Hierarchy, bounds: &Bounds, node: NodeId, ray: &Ray) -> bool
    requires bounds { AreBoundsOf h.now bounds.now }
    requires node { node.0 < node_count h.now }
    ensures { result ≡ is_met h.now ray.now node.0 }
{
    let ball = bounds.ball(node);
    ray.meets(ball.place, ball.radius)
}

/// Whether the ray meets the ball of a node, whose middle is the node's place and whose radius is
/// that of the bounds. If it doesn't, it hits no face that has a corner under the node. It counts
/// one step, and takes no memory.
pub fn ball_met<L: Ledger>(
    h: &Hierarchy,
    bounds: &Bounds,
    node: NodeId,
    ray: &Ray,
    steps: &mut Steps<L>,
) -> bool
    requires bounds { AreBoundsOf h.now bounds.now }
    requires node { node.0 < node_count h.now }
    ensures value { result ≡ is_met h.now ray.now node.0 }
    ensures missed { result ≡ false → (e : ℕ) → e < 3 * face_count h.now
        → Holds h.now node.0 (from_leaf h.now e) → MissesFace h.now ray.now (face_of e) }
    ensures cost { steps.new ≡ steps.old + 1 }
{
    steps.tick();
    h.invariant();
    is_met(h, bounds, node, ray)
}

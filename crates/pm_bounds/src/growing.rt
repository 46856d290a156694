//! The bounds of all nodes from those of the leaves: the records are gone through from the last to
//! the first, so that a node's children have their bounds before it. No call goes down the forest,
//! which can be as deep as it has records.
ghost use Rattle.std.specs.Prelude.{◌≡◌, ℕ, ◌+◌, ◌*◌, ◌^◌, ◌<◌, ◌≤◌, max, None, length};
ghost use Rattle.std.specs.Prelude.{slice_index_or, slice_set};
ghost use Rattle.pm_base.specs.declared.limits.TheConstants.{MOST_VERTICES};
ghost use Rattle.pm_base.specs.Rounded.{distance_of};
ghost use Rattle.pm_forest.specs.Forest.{node_count, record_count, s_of, t_of, u_of};
ghost use Rattle.pm_forest.specs.Places.{place_of_node};
ghost use Rattle.pm_bounds.specs.Boxes.{join};
ghost use Rattle.pm_bounds.specs.Bounds.{AreBoundsOf};
ghost use Rattle.pm_bounds.specs.Tables.{
  bound_lists_of,
  places_of,
  errors_of,
  radii_of,
  ArePlaces,
  AreAtMost,
  AreSmallBoxes,
  AreOfLeaves,
  IsBounds,
  grown_at,
};

use crate::balls::node_ball;
use crate::normal_box::{join, node_box};
use crate::roots::root_up;
use crate::{Ball, NormalBox};
use pm_base::{NodeId, Point, dist2};
use pm_forest::Hierarchy;

// The node that a record splits, and its two children.
fn nodes_of(h: &Hierarchy, k: u32) -> (NodeId, NodeId, NodeId)
    requires { k < record_count h.now }
    ensures s { result.0.0 ≡ s_of h.now k }
    ensures t { result.1.0 ≡ t_of h.now k }
    ensures u { result.2.0 ≡ u_of h.now k }
    ensures s_node { s_of h.now k < node_count h.now }
    ensures t_node { t_of h.now k < node_count h.now }
    ensures u_node { u_of h.now k < node_count h.now }
{
    h.invariant();
    let (t, u) = h.children(k);
    (NodeId(h.record_at(k).s), t, u)
}

// The ball of a node at a place by those of its children: each number is the greater, over the two,
// of the child's number and its distance.
fn over(place: Point, t: &Ball, u: &Ball) -> Ball
    requires t_error { t.now.error ≤ 2 ^ 38 }
    requires t_radius { t.now.radius ≤ 2 ^ 38 }
    requires u_error { u.now.error ≤ 2 ^ 38 }
    requires u_radius { u.now.radius ≤ 2 ^ 38 }
    ensures at { result.place ≡ place }
    ensures error { result.error ≡ max (t.now.error + distance_of place t.now.place)
        (u.now.error + distance_of place u.now.place) }
    ensures radius { result.radius ≡ max (t.now.radius + distance_of place t.now.place)
        (u.now.radius + distance_of place u.now.place) }
    ensures small_error { result.error ≤ max t.now.error u.now.error + 113509 }
    ensures small_radius { result.radius ≤ max t.now.radius u.now.radius + 113509 }
{
    let to_t = root_up(dist2(place, t.place));
    let to_u = root_up(dist2(place, u.place));
    Ball {
        place,
        error: (t.error + to_t).max(u.error + to_u),
        radius: (t.radius + to_t).max(u.radius + to_u),
    }
}

// The ball of the node that a record splits.
fn from_children(h: &Hierarchy, balls: &[Ball], k: u32) -> Ball
    requires record { k < record_count h.now }
    requires len { length balls.now ≡ node_count h.now }
    requires places { ArePlaces h.now (places_of balls.now) }
    requires small_errors { (v : ℕ) → v < node_count h.now
        → slice_index_or (errors_of balls.now) v 0 ≤ 113509 * MOST_VERTICES }
    requires small_radii { (v : ℕ) → v < node_count h.now
        → slice_index_or (radii_of balls.now) v 0 ≤ 113509 * MOST_VERTICES }
    ensures place { result.place ≡ place_of_node h.now (s_of h.now k) }
    ensures error { result.error ≡ grown_at h.now (errors_of balls.now) k }
    ensures radius { result.radius ≡ grown_at h.now (radii_of balls.now) k }
    ensures small_error { (m : ℕ)
        → ((v : ℕ) → v < node_count h.now → slice_index_or (errors_of balls.now) v 0 ≤ m)
        → result.error ≤ m + 113509 }
    ensures small_radius { (m : ℕ)
        → ((v : ℕ) → v < node_count h.now → slice_index_or (radii_of balls.now) v 0 ≤ m)
        → result.radius ≤ m + 113509 }
{
    let (s, t, u) = nodes_of(h, k);
    let place = node_ball(balls, s).place;
    let by_t = node_ball(balls, t);
    let by_u = node_ball(balls, u);
    over(place, &by_t, &by_u)
}

// Gives the node that a record splits the least box that has its children's boxes in it.
fn join_children(h: &Hierarchy, boxes: &mut Vec<Option<NormalBox>>, k: u32)
    requires record { k < record_count h.now }
    requires len { length boxes.old.items ≡ node_count h.now }
    ensures { let old = boxes.old.items in
        boxes.new.items
        ≡ slice_set old (s_of h.now k)
        (join (slice_index_or old (t_of h.now k) None)
        (slice_index_or old (u_of h.now k) None)) }
{
    let (s, t, u) = nodes_of(h, k);
    let joined = join(node_box(boxes, t), node_box(boxes, u));
    boxes[s.0 as usize] = joined;
}

/// Gives all nodes their bounds, where those that no record splits have theirs, and each record the
/// ball of the node that it splits.
pub fn grow(
    h: &Hierarchy,
    balls: &mut Vec<Ball>,
    boxes: &mut Vec<Option<NormalBox>>,
    split_balls: &mut Vec<Ball>,
)
    requires balls_len { length balls.old.items ≡ node_count h.now }
    requires boxes_len { length boxes.old.items ≡ node_count h.now }
    requires splits_len { length split_balls.old.items ≡ record_count h.now }
    requires leaves { AreOfLeaves h.now balls.old.items boxes.old.items }
    requires small_radii { AreAtMost 113509 (radii_of balls.old.items) }
    requires small_boxes { AreSmallBoxes boxes.old.items }
    ensures are { AreBoundsOf h.now
        (bound_lists_of balls.new.items boxes.new.items split_balls.new.items) }
    ensures small { IsBounds
        (bound_lists_of balls.new.items boxes.new.items split_balls.new.items) }
{
    h.invariant();
    for k in (0..h.records()).rev() {
        let (s, ..) = nodes_of(h, k);
        let ball = &from_children(h, balls, k);
        balls[s.0 as usize] = *ball;
        split_balls[k as usize] = *ball;
        join_children(h, boxes, k);
    }
}

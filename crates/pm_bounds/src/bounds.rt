//! The bounds of all nodes, and their readers.
ghost use Rattle.std.specs.Prelude.{◌≡◌, ◌<◌, ◌^◌, None, length, IfOk, slice_index_or, unwrap_or};
ghost use Rattle.pm_base.specs.Place.{origin};
ghost use Rattle.pm_bounds.specs.Boxes.{zero_box, IsSmallBox};
ghost use Rattle.pm_bounds.specs.Bounds.{AreBoundsOf, bare_at};

use crate::balls::{bare_balls, bare_split_balls, node_ball};
use crate::growing::grow;
use crate::leaves::{bare_leaves, bound_leaves};
use crate::normal_box::{bare_boxes, node_box, or_zero};
use crate::{Ball, NormalBox, OutOfMemory};
use pm_base::NodeId;
use pm_forest::Hierarchy;
use std::alloc::Global;
use std::marker::Model;

/// The bounds of all nodes of a hierarchy: for each node its place, an error, a radius and a box of
/// normals, and for each record the ball of the node that it splits. Contracts see one list of each
/// kind by node, and the balls by record.
#[derive(Drop)]
pub struct Bounds {
    balls: Vec<Ball>,
    boxes: Vec<Option<NormalBox>>,
    split_balls: Vec<Ball>,
}

impl Model for Bounds {
    ghost use Rattle.pm_bounds.specs.Bounds.{Bounds};
    ghost use Rattle.pm_bounds.specs.Tables.{bound_lists_of, IsBounds};

    ghost Value = { Bounds };

    ghost view = { λ b. bound_lists_of b.balls.items b.boxes.items b.split_balls.items };

    ghost invariant = { λ b. IsBounds
        (bound_lists_of b.balls.items b.boxes.items b.split_balls.items) };
}

impl Bounds {
    /// The bounds of a hierarchy, in time and memory linear in its nodes and faces. While faces are
    /// gone through, a table of leaves takes 72 bytes more for each leaf.
    pub fn of(alloc: Global, h: &Hierarchy) -> Result<Bounds, OutOfMemory>
        ensures { IfOk result (λ bounds. AreBoundsOf h.now bounds) }
    {
        let mut balls = bare_balls(alloc, h)?;
        let mut boxes = bare_boxes(alloc, h.nodes() as usize)?;
        let leaves = bare_leaves(alloc, h)?;
        bound_leaves(h, leaves, &mut balls, &mut boxes);
        let mut split_balls = bare_split_balls(alloc, h.records() as usize)?;
        grow(h, &mut balls, &mut boxes, &mut split_balls);
        Ok(Bounds {
            balls,
            boxes,
            split_balls,
        })
    }

    /// The node's place, error and radius, which lie side by side.
    pub fn ball(&self, node: NodeId) -> Ball
        requires { node.0 < length self.now.errors }
        ensures place { result.place ≡ slice_index_or self.now.places node.0 origin }
        ensures error { result.error ≡ slice_index_or self.now.errors node.0 0 }
        ensures radius { result.radius ≡ slice_index_or self.now.radii node.0 0 }
        ensures small_error { result.error < 2 ^ 38 }
        ensures small_radius { result.radius < 2 ^ 38 }
    {
        node_ball(&self.balls, node)
    }

    /// The ball of the node that record `k` splits. It lies by record, so that a walk over records
    /// in order reads neighbours.
    pub fn split_ball(&self, k: u32) -> Ball
        requires { k < length self.now.splits }
        ensures value { result ≡ slice_index_or self.now.splits k (bare_at origin) }
        ensures small_error { result.error < 2 ^ 38 }
        ensures small_radius { result.radius < 2 ^ 38 }
    {
        self.split_balls[k as usize]
    }

    /// The node's error: no leaf under the node is farther from its place.
    pub fn error(&self, node: NodeId) -> u64
        requires { node.0 < length self.now.errors }
        ensures value { result ≡ slice_index_or self.now.errors node.0 0 }
        ensures small { result < 2 ^ 38 }
    {
        node_ball(&self.balls, node).error
    }

    /// The node's radius: no corner of a face of the input that has a corner under the node is
    /// farther from its place.
    pub fn radius(&self, node: NodeId) -> u64
        requires { node.0 < length self.now.errors }
        ensures value { result ≡ slice_index_or self.now.radii node.0 0 }
        ensures small { result < 2 ^ 38 }
    {
        node_ball(&self.balls, node).radius
    }

    /// The node's box of normals: those of all faces of the input that have a corner under the
    /// node. It is 0 to 0 on each axis where there is no such face.
    pub fn normals(&self, node: NodeId) -> NormalBox
        requires { node.0 < length self.now.errors }
        ensures value { result ≡ unwrap_or (slice_index_or self.now.boxes node.0 None) zero_box }
        ensures small { IsSmallBox result }
    {
        or_zero(node_box(&self.boxes, node))
    }
}

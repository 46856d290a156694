//! What the first test of a node reads.
ghost use Rattle.std.specs.Prelude.{◌≡◌, ◌<◌, length, IfOk, slice_index_or};
ghost use Rattle.pm_base.specs.Place.{origin};
ghost use Rattle.pm_forest.specs.Forest.{node_count};
ghost use Rattle.pm_bounds.specs.Tables.{places_of, errors_of, radii_of, AreBare};

use crate::OutOfMemory;
use pm_base::{NodeId, Point};
use pm_forest::Hierarchy;
use std::alloc::Global;

/// The place of a node, its error and its radius, 24 bytes: all that a view asks of most nodes.
#[derive(Clone, Copy, Debug, PartialEq, Eq)]
pub struct Ball {
    pub place: Point,
    pub error: u64,
    pub radius: u64,
}

/// The ball of a node.
pub(crate) fn node_ball(balls: &[Ball], node: NodeId) -> Ball
    requires { node.0 < length balls.now }
    ensures place { result.place ≡ slice_index_or (places_of balls.now) node.0 origin }
    ensures error { result.error ≡ slice_index_or (errors_of balls.now) node.0 0 }
    ensures radius { result.radius ≡ slice_index_or (radii_of balls.now) node.0 0 }
{
    balls[node.0 as usize]
}

/// A ball for each node, at its place, with no error and no radius yet.
pub(crate) fn bare_balls(alloc: Global, h: &Hierarchy) -> Result<Vec<Ball>, OutOfMemory>
    ensures { IfOk result (λ balls. AreBare h.now (node_count h.now) balls.items) }
{
    let mut balls = Vec::with_capacity(alloc, h.nodes() as usize)?;
    for node in 0..h.nodes() {
        let place = h.place(NodeId(node));
        balls.push(Ball {
            place,
            error: 0,
            radius: 0,
        })?;
    }
    Ok(balls)
}

/// As many balls as there are records, at the middle of space, to be written over. The length is a
/// parameter, so that no proof unfolds the list.
pub(crate) fn bare_split_balls(alloc: Global, records: usize) -> Result<Vec<Ball>, OutOfMemory>
    ensures { IfOk result (λ balls. length balls.items ≡ records) }
{
    let place = Point::new(0, 0, 0).unwrap();
    let ball = Ball {
        place,
        error: 0,
        radius: 0,
    };
    vec![in alloc; ball; records]
}

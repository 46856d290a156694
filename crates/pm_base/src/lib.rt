//! What every other crate speaks of: points, meshes, lists with room, and exact whole-number
//! geometry.
#![tactic(auto)]

mod distance;
mod ids;
mod items;
mod limits;
mod log;
mod mesh;
mod normal;
mod optional;
mod point;
mod side_map;

pub use distance::{dist_up, dist2, distances_add, lengths_add};
pub use ids::{FaceId, NodeId, Side};
pub use items::{Items, OutOfMemory};
pub use limits::{GREATEST_COORDINATE, MOST_FACES, MOST_NODES, MOST_SIDES, MOST_VERTICES};
pub use log::{Collapse, Gone, Log};
pub use mesh::{Corners, Mesh, Triples};
pub use normal::{Normal, cross, dot};
pub use optional::OptionalNumber;
pub use point::{Point, Points};
pub use side_map::{OptionalSide, SideMap};

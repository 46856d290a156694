//! Views, the text that spells one, and the three tests by which a view wants a node of the vertex
//! forest.
#![tactic(auto)]

mod eye;
mod facing;
mod fields;
mod limits;
mod measure;
mod number;
mod plane;
mod size;
mod small_ball;
mod steps;
mod theory;
mod view;
mod wanted;

pub use fields::{BadView, ViewKind, cut_field, next_field, read_view};
pub use limits::{
    GREATEST_EYE_COORDINATE, GREATEST_FOCAL_LENGTH, GREATEST_NORMAL_COMPONENT, GREATEST_OFFSET,
    GREATEST_TOLERANCE,
};
pub use measure::Measure;
pub use number::read_small;
pub use plane::Plane;
pub use steps::Steps;
pub use theory::wanted_nodes_are_sound;
pub use view::View;
pub use wanted::{wants, wants_split};

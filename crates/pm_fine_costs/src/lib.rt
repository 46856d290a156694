//! The costs of pairs by a policy for the look of what is left: planes of faces by area, planes
//! that hold the border, and planes that a vertex takes of the faces round it when it is made. The
//! run by it.
#![tactic(auto)]

mod corner;
mod face_sum;
mod first;
mod moved;
mod pair;
mod round;
mod run;
mod steps;
mod table;
mod theory;
mod volume;

pub use run::simplify_fine;
pub use steps::{FineRun, Progress};
pub use table::{FineTable, OutOfMemory};
pub use theory::planes_round_are_right;

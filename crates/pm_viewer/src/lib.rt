//! A viewer in memory: the hierarchy of a stream that is being shown, the script lines that are
//! done on it one by one, and the mesh shown as arrays.
#![tactic(auto)]

mod fail;
mod filling;
mod inputs;
mod looking;
mod measuring;
mod nodes;
mod opening;
mod painting;
mod reply;
mod viewer;

pub use fail::{Cause, OpenFail, cause_of};
pub use filling::TooSmall;
pub use measuring::{Coordinates, Extent};
pub use reply::LEAST_ROOM;
pub use viewer::Viewer;

//! The frame text: the active nodes and the kept faces of a front, ascending by number.
#![tactic(auto)]

mod frame;
mod line;

pub use frame::{put_faces, put_last, write_frame};
pub use line::{put_face, put_node};

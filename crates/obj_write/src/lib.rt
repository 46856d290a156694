//! The text of a mesh in the syntax of Wavefront OBJ, written to a sink.
#![tactic(auto)]

mod line;
mod write;

pub use write::write_obj;

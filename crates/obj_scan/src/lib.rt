//! The points and triangles that any text in the syntax of Wavefront OBJ spells: decimals of any
//! length, polygons, and continued lines.
#![tactic(auto)]

mod fault;
mod fields;
mod form;
mod passed;
mod polygons;
mod reader;
mod scan;
mod scanner;
mod theory;

pub use fault::{ScanFail, ScanFault};
pub use passed::PassedOver;
pub use polygons::push_polygon;
pub use scan::{Scan, scan_obj, scan_obj_after};
pub use theory::scans_are_sound;

/// The answer for want of memory.
pub type OutOfMemory = std::alloc::AllocError;

//! What one line of an OBJ text gives.
use pm_base::{Corners, Point};

/// What a line gives.
#[derive(Clone, Copy, Debug, PartialEq, Eq)]
pub enum Found {
    Nothing,
    Vertex(Point),
    Face(Corners),
}

//! Which way something goes that is at leaves.
use crate::unit_box::UnitBox;

/// The normal of a face, which is at its three corners, or the direction of a border side, which is
/// at its two ends, of which the second stands twice; in parts of its own length, and none where it
/// has no length.
#[derive(Clone, Copy)]
pub struct Heading {
    pub a: u32,
    pub b: u32,
    pub c: u32,
    pub parts: Option<UnitBox>,
}

//! The axes along which the normals under a node are looked at.
ghost use Rattle.std.specs.Prelude.{◌≡◌, ◌<◌, true, length, slice_index_or};
ghost use Rattle.pm_deviation.specs.Tables.{is_axis};

/// An axis, whose numbers are -1, 0 and 1, not all 0.
#[derive(Clone, Copy)]
pub struct Axis {
    pub x: i32,
    pub y: i32,
    pub z: i32,
}

/// The 13 axes; with their opposites, which mirror them, they are the directions to the 26
/// neighbours of a cell.
pub const AXES: [Axis; 13] = [
    Axis { x: 1, y: 0, z: 0 },
    Axis { x: 0, y: 1, z: 0 },
    Axis { x: 0, y: 0, z: 1 },
    Axis { x: 1, y: 1, z: 0 },
    Axis { x: 1, y: -1, z: 0 },
    Axis { x: 1, y: 0, z: 1 },
    Axis { x: 1, y: 0, z: -1 },
    Axis { x: 0, y: 1, z: 1 },
    Axis { x: 0, y: 1, z: -1 },
    Axis { x: 1, y: 1, z: 1 },
    Axis { x: 1, y: 1, z: -1 },
    Axis { x: 1, y: -1, z: 1 },
    Axis { x: 1, y: -1, z: -1 },
];

/// Axis `i` of `AXES`.
pub(crate) fn axis_at(i: usize) -> Axis
    requires { i < length AXES }
    ensures value { result ≡ slice_index_or AXES i result }
    ensures axis { is_axis result ≡ true }
{
    AXES[i]
}

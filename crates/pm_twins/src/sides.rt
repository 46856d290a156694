//! The vertices of the sides of a list of faces. A corner is chosen without a jump, since in the
//! order of the rows no guess of it is good.
ghost use Rattle.std.specs.Prelude.{◌≡◌, ◌*◌, ◌<◌, length};
ghost use Rattle.pm_base.specs.Sides.{to as to_of, third as third_of, net_of};

use pm_base::{Corners, Side};

/// The vertex from which a side runs.
pub(crate) fn from(faces: &[Corners], side: Side) -> u32
    requires { side.0 < 3 * length faces.now }
    ensures { result ≡ (net_of faces.now).from side.0 }
{
    let face = faces[side.face().0 as usize];
    [face.a, face.b, face.c][side.0 as usize % 3]
}

/// The vertex to which a side runs.
pub(crate) fn to(faces: &[Corners], side: Side) -> u32
    requires { side.0 < 3 * length faces.now }
    ensures { result ≡ to_of (net_of faces.now) side.0 }
{
    let face = faces[side.face().0 as usize];
    [face.b, face.c, face.a][side.0 as usize % 3]
}

/// The third corner of a side's face, from which the side before it runs.
pub(crate) fn third(faces: &[Corners], side: Side) -> u32
    requires { side.0 < 3 * length faces.now }
    ensures { result ≡ third_of (net_of faces.now) side.0 }
{
    let face = faces[side.face().0 as usize];
    [face.c, face.a, face.b][side.0 as usize % 3]
}

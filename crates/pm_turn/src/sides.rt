//! The vertices of the sides of a list of faces.
ghost use Rattle.std.specs.Prelude.{◌≡◌, ◌*◌, ◌<◌, ◌≤◌, length};
ghost use Rattle.pm_base.specs.declared.limits.TheConstants.{MOST_FACES};
ghost use Rattle.pm_base.specs.Sides.{to as to_of, net_of};

use pm_base::{Corners, Side};

/// The vertex from which a side runs.
pub(crate) fn from(faces: &[Corners], side: Side) -> u32
    requires { side.0 < 3 * length faces.now }
    ensures { result ≡ (net_of faces.now).from side.0 }
{
    let face = faces[side.face().0 as usize];
    match side.0 % 3 {
        0 => face.a,
        1 => face.b,
        _ => face.c,
    }
}

/// The vertex to which a side runs.
pub(crate) fn to(faces: &[Corners], side: Side) -> u32
    requires short { length faces.now ≤ MOST_FACES }
    requires in_range { side.0 < 3 * length faces.now }
    ensures { result ≡ to_of (net_of faces.now) side.0 }
{
    from(faces, side.next())
}

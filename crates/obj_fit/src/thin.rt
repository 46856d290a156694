//! Faces without area.
ghost use Rattle.std.specs.Prelude.{◌≡◌, ◌≤◌, length};
ghost use Rattle.std.specs.List.{All};
ghost use Rattle.pm_base.specs.declared.limits.TheConstants.{MOST_FACES};
ghost use Rattle.pm_base.specs.Meshes.{IsFace};
ghost use Rattle.obj_fit.specs.Thin.{on_a_line, is_thin, thin_count};

use pm_base::{Corners, Point, cross};

// Whether three points are on a line.
fn on_a_line(a: Point, b: Point, c: Point) -> bool
    ensures { result ≡ on_a_line a b c }
{
    let normal = cross(a, b, c);
    normal.x == 0 && normal.y == 0 && normal.z == 0
}

fn is_thin(points: &[Point], face: Corners) -> bool
    requires { IsFace (length points.now) face }
    ensures { result ≡ is_thin points.now face }
{
    let a = points[face.a as usize];
    let b = points[face.b as usize];
    let c = points[face.c as usize];
    on_a_line(a, b, c)
}

/// How many faces have no area, since their points are on a line.
#[tactic(auto, unfolding(crate::specs::Thin::thin_count))]
pub fn count_thin(points: &[Point], faces: &[Corners]) -> u32
    requires corners { All (IsFace (length points.now)) faces.now }
    requires few { length faces.now ≤ MOST_FACES }
    ensures { result ≡ thin_count points.now faces.now }
{
    let mut n = 0;
    for face in faces {
        if is_thin(points, *face) {
            n += 1;
        }
    }
    n
}

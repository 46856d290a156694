//! The two views of a grid.
ghost use Rattle.std.specs.Prelude.{◌≡◌, ◌≤◌};
ghost use Rattle.pm_demo.specs.Views.{middle_view, corner_view};

use arrayvec::ArrayVec;
use pm_view::{Plane, View};

/// From above the middle of the grid of n times n cells.
pub fn middle_view(n: u32) -> View
    requires { n ≤ 256 }
    ensures { result ≡ middle_view n }
{
    let middle = (50 * n) as i32;
    let Some(view) = View::new(middle, middle, 2000, 1000, 40, 40, ArrayVec::new()) else {
        unreachable!()
    };
    view
}

/// From above its first point, in front of the plane that halves its columns.
pub fn corner_view(n: u32) -> View
    requires { n ≤ 256 }
    ensures { result ≡ corner_view n }
{
    let mut planes = ArrayVec::new();
    planes.push(Plane {
        a: 1,
        b: 0,
        c: 0,
        d: -i64::from(50 * n),
    });
    let Some(view) = View::new(0, 0, 500, 1000, 20, 20, planes) else {
        unreachable!()
    };
    view
}

//! The way from one place to another.
ghost use Rattle.std.specs.Prelude.{◌≡◌, ◌≤◌, ◌-ℤ◌, unsigned_abs};
ghost use Rattle.pm_base.specs.declared.limits.TheConstants.{GREATEST_COORDINATE};
ghost use Rattle.pm_deviation.specs.Lines.{way};

use pm_base::Point;

/// A way along each axis.
#[derive(Clone, Copy)]
pub struct Way {
    pub x: i64,
    pub y: i64,
    pub z: i64,
}

// How far x is above y.
fn above(x: i32, y: i32) -> i64
    requires x_small { unsigned_abs x ≤ GREATEST_COORDINATE }
    requires y_small { unsigned_abs y ≤ GREATEST_COORDINATE }
    ensures value { result ≡ x -ℤ y }
    ensures small { unsigned_abs result ≤ 65534 }
{
    i64::from(x) - i64::from(y)
}

impl Way {
    /// The way to p from q.
    pub(crate) fn to(p: Point, q: Point) -> Way
        ensures x { result.x ≡ (way p q).x }
        ensures y { result.y ≡ (way p q).y }
        ensures z { result.z ≡ (way p q).z }
        ensures x_small { unsigned_abs result.x ≤ 65534 }
        ensures y_small { unsigned_abs result.y ≤ 65534 }
        ensures z_small { unsigned_abs result.z ≤ 65534 }
    {
        Way {
            x: above(p.x(), q.x()),
            y: above(p.y(), q.y()),
            z: above(p.z(), q.z()),
        }
    }
}

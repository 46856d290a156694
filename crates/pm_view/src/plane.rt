//! Planes, and whether a ball lies wholly on the negative side of one.
ghost use Rattle.std.specs.Prelude.{◌≡◌, ◌+◌, ◌*◌, ◌≤◌, ◌^◌, ◌&&◌, true, pos, ◌+ℤ◌, ◌*ℤ◌, int_lt};
ghost use Rattle.std.specs.Prelude.{nat_lt, unsigned_abs};
ghost use Rattle.std.specs.List.{list_all};
ghost use Rattle.pm_base.specs.declared.limits.TheConstants.{GREATEST_COORDINATE};
ghost use Rattle.pm_base.specs.Geometry.{square_of, norm2_of};
ghost use Rattle.pm_view.specs.declared.limits.TheConstants.{GREATEST_NORMAL_COMPONENT};
ghost use Rattle.pm_view.specs.Views.{is_plane};
ghost use Rattle.pm_view.specs.Wanted.{value_at, normal_in, is_outside, is_outside_any};

use crate::limits::{GREATEST_NORMAL_COMPONENT, GREATEST_OFFSET, is_within};
use crate::size::square;
use pm_base::Point;

/// The plane a x + b y + c z + d = 0. A view looks at the side where the sum is above 0.
#[derive(Clone, Copy, Debug, Default, PartialEq, Eq)]
pub struct Plane {
    pub a: i32,
    pub b: i32,
    pub c: i32,
    pub d: i64,
}

// A number of the normal times a coordinate.
fn component(a: i32, x: i32) -> i64
    requires a_small { unsigned_abs a ≤ GREATEST_NORMAL_COMPONENT }
    requires x_small { unsigned_abs x ≤ GREATEST_COORDINATE }
    ensures value { result ≡ a *ℤ x }
    ensures small { unsigned_abs result ≤ 2 ^ 31 }
{
    i64::from(a) * i64::from(x)
}

fn add_four(a: i64, b: i64, c: i64, d: i64) -> i64
    requires a_small { unsigned_abs a ≤ 2 ^ 31 }
    requires b_small { unsigned_abs b ≤ 2 ^ 31 }
    requires c_small { unsigned_abs c ≤ 2 ^ 31 }
    requires d_small { unsigned_abs d ≤ 2 ^ 42 }
    ensures value { result ≡ a +ℤ b +ℤ c +ℤ d }
    ensures small { unsigned_abs result ≤ 2 ^ 43 }
{
    a + b + c + d
}

// The square of a number of the normal.
fn square_of_component(a: i32) -> u64
    requires { unsigned_abs a ≤ GREATEST_NORMAL_COMPONENT }
    ensures value { result ≡ square_of (unsigned_abs a) }
    ensures small { result ≤ 2 ^ 31 }
{
    let size = u64::from(a.unsigned_abs());
    size * size
}

// Whether the ball is outside: m is the plane's value at its middle, n the squared length of the
// plane's normal.
fn is_beyond(m: i64, n: u64, radius: u64) -> bool
    requires m_small { unsigned_abs m ≤ 2 ^ 43 }
    requires n_small { n ≤ 2 ^ 34 }
    requires radius_small { radius ≤ 2 ^ 38 }
    ensures { result
        ≡ (int_lt m (pos 0) && nat_lt (radius * radius * n) (unsigned_abs m * unsigned_abs m)) }
{
    m < 0 && square(radius) * u128::from(n) < square(m.unsigned_abs())
}

impl Plane {
    // Whether each number is in range.
    fn is_in_range(&self) -> bool
        ensures { result ≡ is_plane self.now }
    {
        is_within(self.a, GREATEST_NORMAL_COMPONENT)
            && is_within(self.b, GREATEST_NORMAL_COMPONENT)
            && is_within(self.c, GREATEST_NORMAL_COMPONENT)
            && self.d.unsigned_abs() <= GREATEST_OFFSET
    }

    // The value at a place.
    fn value_at(&self, p: Point) -> i64
        requires { is_plane self.now ≡ true }
        ensures value { result ≡ value_at self.now p }
        ensures small { unsigned_abs result ≤ 2 ^ 43 }
    {
        add_four(
            component(self.a, p.x()),
            component(self.b, p.y()),
            component(self.c, p.z()),
            self.d,
        )
    }

    // The squared length of the normal.
    fn squared_length(&self) -> u64
        requires { is_plane self.now ≡ true }
        ensures value { result ≡ norm2_of (normal_in self.now) }
        ensures small { result ≤ 2 ^ 34 }
    {
        square_of_component(self.a) + square_of_component(self.b) + square_of_component(self.c)
    }

    // Whether the whole ball round p lies on the negative side.
    fn has_outside(&self, p: Point, radius: u64) -> bool
        requires plane { is_plane self.now ≡ true }
        requires radius_small { radius ≤ 2 ^ 38 }
        ensures { result ≡ is_outside self.now p radius }
    {
        is_beyond(self.value_at(p), self.squared_length(), radius)
    }
}

/// Whether each plane is in range.
pub fn are_planes(planes: &[Plane]) -> bool
    ensures { result ≡ list_all is_plane planes.now }
{
    planes.iter().all(|plane| plane.is_in_range())
}

/// Whether the whole ball round p lies on the negative side of one of the planes.
pub fn is_outside_any(planes: &[Plane], p: Point, radius: u64) -> bool
    requires planes { list_all is_plane planes.now ≡ true }
    requires radius_small { radius ≤ 2 ^ 38 }
    ensures { result ≡ is_outside_any planes.now p radius }
{
    for plane in planes {
        if plane.has_outside(p, radius) {
            return true;
        }
    }
    false
}

//! Corners of a polygon on a plane, their triangles, and exact signed areas.
ghost use Rattle.std.specs.Prelude.{◌≡◌, ◌+◌, ◌<◌, ◌≤◌, ◌^◌, ◌+ℤ◌, ◌-ℤ◌, ◌*ℤ◌, length};
ghost use Rattle.std.specs.Prelude.{unsigned_abs};
ghost use Rattle.pm_ears.specs.Areas.{
  cross_of,
  twice_area_of,
  is_at as is_at_of,
  is_right_of as is_right_of_line,
  is_corner as is_corner_of,
  is_outside as is_outside_of,
  lies_in as lies_in_of,
  inside_of,
  triangle_at as triangle_at_of,
};

/// A corner of a polygon: its position among the corners, from 0, and where it stands on the plane.
#[derive(Clone, Copy, Debug, PartialEq, Eq)]
pub struct Spot {
    pub position: u32,
    pub x: i16,
    pub y: i16,
}

/// Three corners of a polygon.
#[derive(Clone, Copy, Debug, PartialEq, Eq)]
pub struct Triangle {
    pub a: Spot,
    pub b: Spot,
    pub c: Spot,
}

// The product of two coordinates.
fn product(a: i16, b: i16) -> i64
    ensures value { result ≡ a *ℤ b }
    ensures small { unsigned_abs result ≤ 2 ^ 30 }
{
    i64::from(a) * i64::from(b)
}

// The difference of two such products.
fn minus(a: i64, b: i64) -> i64
    requires a_small { unsigned_abs a ≤ 2 ^ 30 }
    requires b_small { unsigned_abs b ≤ 2 ^ 30 }
    ensures value { result ≡ a -ℤ b }
    ensures small { unsigned_abs result ≤ 2 ^ 31 }
{
    a - b
}

// Twice the signed area of the triangle of the middle, p and q.
#[tactic(auto, unfolding(crate::specs::Areas::cross_of))]
pub(crate) fn cross(p: Spot, q: Spot) -> i64
    ensures value { result ≡ cross_of p q }
    ensures small { unsigned_abs result ≤ 2 ^ 31 }
{
    minus(product(p.x, q.y), product(p.y, q.x))
}

// The sum of three such areas.
fn add_three(a: i64, b: i64, c: i64) -> i64
    requires a_small { unsigned_abs a ≤ 2 ^ 31 }
    requires b_small { unsigned_abs b ≤ 2 ^ 31 }
    requires c_small { unsigned_abs c ≤ 2 ^ 31 }
    ensures { result ≡ a +ℤ b +ℤ c }
{
    a + b + c
}

// Twice the signed area of a triangle.
pub(crate) fn twice_area(t: Triangle) -> i64
    ensures { result ≡ twice_area_of t }
{
    add_three(cross(t.a, t.b), cross(t.b, t.c), cross(t.c, t.a))
}

// Whether two corners stand at one place.
fn is_at(p: Spot, q: Spot) -> bool
    ensures { result ≡ is_at_of p q }
{
    p.x == q.x && p.y == q.y
}

// Whether a corner stands to the right of the line from a to b.
fn is_right_of(a: Spot, b: Spot, p: Spot) -> bool
    ensures { result ≡ is_right_of_line a b p }
{
    twice_area(Triangle { a, b, c: p }) < 0
}

// Whether a corner stands at one of a triangle's three places.
fn is_corner(t: Triangle, p: Spot) -> bool
    ensures { result ≡ is_corner_of t p }
{
    is_at(t.a, p) || is_at(t.b, p) || is_at(t.c, p)
}

// Whether a corner stands outside a triangle that isn't turned over.
fn is_outside(t: Triangle, p: Spot) -> bool
    ensures { result ≡ is_outside_of t p }
{
    is_right_of(t.a, t.b, p) || is_right_of(t.b, t.c, p) || is_right_of(t.c, t.a, p)
}

// Whether a corner lies in a triangle that isn't turned over, or on its border, but at none of its
// three places.
#[tactic(auto, unfolding(crate::specs::Areas::lies_in))]
pub(crate) fn lies_in(t: Triangle, p: Spot) -> bool
    ensures { result ≡ lies_in_of t p }
{
    !is_corner(t, p) && !is_outside(t, p)
}

// How many corners lie in a triangle.
pub(crate) fn count_inside(t: Triangle, spots: &[Spot]) -> u32
    requires { length spots.now < 2 ^ 32 }
    ensures value { result ≡ inside_of t spots.now }
    ensures few { result ≤ length spots.now }
{
    let mut inside = 0;
    for i in 0..spots.len() {
        inside += u32::from(lies_in(t, spots[i]));
    }
    inside
}

// The triangle of corner i and the two after it.
pub(crate) fn triangle_at(spots: &[Spot], i: usize) -> Triangle
    requires { i + 2 < length spots.now }
    ensures { result ≡ triangle_at_of spots.now i }
{
    Triangle {
        a: spots[i],
        b: spots[i + 1],
        c: spots[i + 2],
    }
}

//! Planes with fine normals through points.
ghost use Rattle.std.specs.Prelude.{◌≡◌, ◌≤◌, ◌^◌, ◌+ℤ◌, ◌*ℤ◌, neg_ℤ, unsigned_abs};
ghost use Rattle.pm_base.specs.declared.limits.TheConstants.{GREATEST_COORDINATE};
ghost use Rattle.pm_quadric.specs.Planes.{plane_through};
ghost use Rattle.pm_fine.specs.FinePlanes.{IsFinePlane};

use crate::FineNormal;
use pm_base::Point;
use std::marker::Model;

/// A plane whose normal is a fine one. A point is on it where its value, a x + b y + c z + d, is 0.
#[derive(Clone, Copy, Debug, PartialEq, Eq)]
pub struct FinePlane {
    a: i32,
    b: i32,
    c: i32,
    d: i64,
}

impl Model for FinePlane {
    ghost use Rattle.pm_quadric.specs.Planes.{Plane};
    ghost use Rattle.pm_fine.specs.FinePlanes.{IsFinePlane};

    ghost Value = { Plane };

    ghost view = { λ f. record { a = f.a; b = f.b; c = f.c; d = f.d } };

    ghost invariant = { λ f. IsFinePlane (record { a = f.a; b = f.b; c = f.c; d = f.d }) };

    ghost inverse = { λ f. record { a = f.a; b = f.b; c = f.c; d = f.d } };
}

// A number of a normal times a coordinate.
fn component(a: i32, x: i32) -> i64
    requires a_small { unsigned_abs a ≤ 2 ^ 27 }
    requires x_small { unsigned_abs x ≤ GREATEST_COORDINATE }
    ensures value { result ≡ a *ℤ x }
    ensures small { unsigned_abs result ≤ 4397912293376 }
{
    i64::from(a) * i64::from(x)
}

fn minus_three(a: i64, b: i64, c: i64) -> i64
    requires a_small { unsigned_abs a ≤ 4397912293376 }
    requires b_small { unsigned_abs b ≤ 4397912293376 }
    requires c_small { unsigned_abs c ≤ 4397912293376 }
    ensures value { result ≡ neg_ℤ (a +ℤ b +ℤ c) }
    ensures small { unsigned_abs result ≤ 13193736880128 }
{
    -(a + b + c)
}

impl FinePlane {
    /// The plane with this normal through a point, whose value there is 0.
    pub fn through(n: FineNormal, p: Point) -> FinePlane
        ensures { result ≡ plane_through n p }
    {
        let (a, b, c) = (n.x(), n.y(), n.z());
        let d = minus_three(
            component(a, p.x()),
            component(b, p.y()),
            component(c, p.z()),
        );
        FinePlane { a, b, c, d }
    }

    pub(crate) fn a(&self) -> i64
        ensures value { result ≡ self.now.a }
        ensures in_range { IsFinePlane self.now }
    {
        i64::from(self.a)
    }

    pub(crate) fn b(&self) -> i64
        ensures value { result ≡ self.now.b }
        ensures in_range { IsFinePlane self.now }
    {
        i64::from(self.b)
    }

    pub(crate) fn c(&self) -> i64
        ensures value { result ≡ self.now.c }
        ensures in_range { IsFinePlane self.now }
    {
        i64::from(self.c)
    }

    pub(crate) fn d(&self) -> i64
        ensures value { result ≡ self.now.d }
        ensures in_range { IsFinePlane self.now }
    {
        self.d
    }
}

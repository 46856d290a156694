//! Boxes of normals in parts of their own lengths.
ghost use Rattle.std.specs.Prelude.{◌≡◌, ◌≤◌, ◌+ℤ◌, ◌*ℤ◌, unsigned_abs};
ghost use Rattle.pm_deviation.specs.Spreads.{along, times};
ghost use Rattle.pm_deviation.specs.Tables.{IsSum};

use crate::spread::Spread;

/// On each axis the parts that normals have along it.
#[derive(Clone, Copy)]
pub struct UnitBox {
    pub x: Spread,
    pub y: Spread,
    pub z: Spread,
}

// The product of a part and a number of a direction.
fn product(a: i32, m: i64) -> i64
    requires a_small { unsigned_abs a ≤ 49152 }
    requires m_small { unsigned_abs m ≤ 65534 }
    ensures value { result ≡ a *ℤ m }
    ensures small { unsigned_abs result ≤ 3221127168 }
{
    i64::from(a) * m
}

// Between which numbers lie the products of a number with those of a spread.
fn times(s: &Spread, m: i64) -> (i64, i64)
    requires s_small { IsSum s.now }
    requires m_small { unsigned_abs m ≤ 65534 }
    ensures low { result.0 ≡ (times s.now m).low }
    ensures high { result.1 ≡ (times s.now m).high }
    ensures low_small { unsigned_abs result.0 ≤ 3221127168 }
    ensures high_small { unsigned_abs result.1 ≤ 3221127168 }
{
    let first = product(s.low, m);
    let second = product(s.high, m);
    (first.min(second), first.max(second))
}

fn add_three(a: i64, b: i64, c: i64) -> i64
    requires a_small { unsigned_abs a ≤ 3221127168 }
    requires b_small { unsigned_abs b ≤ 3221127168 }
    requires c_small { unsigned_abs c ≤ 3221127168 }
    ensures value { result ≡ a +ℤ b +ℤ c }
    ensures small { unsigned_abs result ≤ 9663381504 }
{
    a + b + c
}

impl UnitBox {
    /// Between which numbers lie the products of a direction with the vectors of the box.
    #[tactic(auto, unfolding(crate::specs::Spreads::along))]
    pub(crate) fn along(&self, x: i64, y: i64, z: i64) -> (i64, i64)
        requires x_small { IsSum self.now.x }
        requires y_small { IsSum self.now.y }
        requires z_small { IsSum self.now.z }
        requires dx_small { unsigned_abs x ≤ 65534 }
        requires dy_small { unsigned_abs y ≤ 65534 }
        requires dz_small { unsigned_abs z ≤ 65534 }
        ensures low { result.0 ≡ (along self.now (record { x = x; y = y; z = z })).low }
        ensures high { result.1 ≡ (along self.now (record { x = x; y = y; z = z })).high }
        ensures low_small { unsigned_abs result.0 ≤ 9663381504 }
        ensures high_small { unsigned_abs result.1 ≤ 9663381504 }
    {
        let (low_x, high_x) = times(&self.x, x);
        let (low_y, high_y) = times(&self.y, y);
        let (low_z, high_z) = times(&self.z, z);
        (
            add_three(low_x, low_y, low_z),
            add_three(high_x, high_y, high_z),
        )
    }
}

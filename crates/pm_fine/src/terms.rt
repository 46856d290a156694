//! The terms of a fine quadric's polynomial, and their sums. The bounds leave each sum within 128
//! bits.
ghost use Rattle.std.specs.Prelude.{◌≡◌, ◌≤◌, ◌*◌, ◌^◌, pos, ◌+ℤ◌, ◌*ℤ◌, unsigned_abs};
ghost use Rattle.pm_base.specs.declared.limits.TheConstants.{GREATEST_COORDINATE};

// The product of two numbers of a plane.
pub(crate) fn pair(a: i64, b: i64) -> i128
    requires a_small { unsigned_abs a ≤ 2 ^ 44 }
    requires b_small { unsigned_abs b ≤ 2 ^ 44 }
    ensures { result ≡ a *ℤ b }
{
    i128::from(a) * i128::from(b)
}

// Twice that product, for the terms that a square has twice.
pub(crate) fn double(a: i64, b: i64) -> i128
    requires a_small { unsigned_abs a ≤ 2 ^ 44 }
    requires b_small { unsigned_abs b ≤ 2 ^ 44 }
    ensures { result ≡ pos 2 *ℤ (a *ℤ b) }
{
    2 * pair(a, b)
}

pub(crate) fn add_three(a: i128, b: i128, c: i128) -> i128
    requires a_small { unsigned_abs a ≤ 2 ^ 122 }
    requires b_small { unsigned_abs b ≤ 2 ^ 122 }
    requires c_small { unsigned_abs c ≤ 2 ^ 122 }
    ensures value { result ≡ a +ℤ b +ℤ c }
    ensures small { unsigned_abs result ≤ 2 ^ 124 }
{
    a + b + c
}

pub(crate) fn add_four(a: i128, b: i128, c: i128, d: i128) -> i128
    requires a_small { unsigned_abs a ≤ 2 ^ 124 }
    requires b_small { unsigned_abs b ≤ 2 ^ 124 }
    requires c_small { unsigned_abs c ≤ 2 ^ 124 }
    requires d_small { unsigned_abs d ≤ 2 ^ 124 }
    ensures { result ≡ a +ℤ b +ℤ c +ℤ d }
{
    a + b + c + d
}

// The product of two coordinates.
fn product(x: i32, y: i32) -> i32
    requires x_small { unsigned_abs x ≤ GREATEST_COORDINATE }
    requires y_small { unsigned_abs y ≤ GREATEST_COORDINATE }
    ensures value { result ≡ x *ℤ y }
    ensures small { unsigned_abs result ≤ 1073676289 }
{
    x * y
}

// A coefficient times a factor, where the product is small enough to be added to others.
fn times(coefficient: i128, factor: i32) -> i128
    requires { unsigned_abs coefficient * unsigned_abs factor ≤ 2 ^ 122 }
    ensures value { result ≡ coefficient *ℤ factor }
    ensures small { unsigned_abs result ≤ 2 ^ 122 }
{
    coefficient * i128::from(factor)
}

// A coefficient times two coordinates.
pub(crate) fn quadratic(coefficient: i128, x: i32, y: i32) -> i128
    requires coefficient_small { unsigned_abs coefficient ≤ 2 ^ 80 }
    requires x_small { unsigned_abs x ≤ GREATEST_COORDINATE }
    requires y_small { unsigned_abs y ≤ GREATEST_COORDINATE }
    ensures value { result ≡ coefficient *ℤ (x *ℤ y) }
    ensures small { unsigned_abs result ≤ 2 ^ 122 }
{
    times(coefficient, product(x, y))
}

// A coefficient times a coordinate.
pub(crate) fn linear(coefficient: i128, x: i32) -> i128
    requires coefficient_small { unsigned_abs coefficient ≤ 2 ^ 97 }
    requires x_small { unsigned_abs x ≤ GREATEST_COORDINATE }
    ensures value { result ≡ coefficient *ℤ x }
    ensures small { unsigned_abs result ≤ 2 ^ 122 }
{
    times(coefficient, x)
}

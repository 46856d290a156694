//! The least and the greatest that the product of a normal in a box and a way from the eye to a
//! ball can be.
ghost use Rattle.std.specs.Prelude.{◌≡◌, ◌≤◌, ◌^◌, pos, ◌+ℤ◌, ◌-ℤ◌, ◌*ℤ◌, unsigned_abs};
ghost use Rattle.pm_base.specs.declared.limits.TheConstants.{GREATEST_COORDINATE};
ghost use Rattle.pm_view.specs.declared.limits.TheConstants.{GREATEST_EYE_COORDINATE};
ghost use Rattle.pm_view.specs.Wanted.{least_product, greatest_product};

// The product of an end of the normal box and an end of the point box less the eye.
fn product(a: i64, b: i64) -> i128
    requires a_small { unsigned_abs a ≤ 2 ^ 34 }
    requires b_small { unsigned_abs b ≤ 2 ^ 40 }
    ensures value { result ≡ a *ℤ b }
    ensures small { unsigned_abs result ≤ 2 ^ 74 }
{
    i128::from(a) * i128::from(b)
}

// The least product of an end of the interval from a to b and one of that from c to d.
fn least(a: i64, b: i64, c: i64, d: i64) -> i128
    requires a_small { unsigned_abs a ≤ 2 ^ 34 }
    requires b_small { unsigned_abs b ≤ 2 ^ 34 }
    requires c_small { unsigned_abs c ≤ 2 ^ 40 }
    requires d_small { unsigned_abs d ≤ 2 ^ 40 }
    ensures value { result ≡ least_product a b c d }
    ensures small { unsigned_abs result ≤ 2 ^ 74 }
{
    product(a, c)
        .min(product(a, d))
        .min(product(b, c).min(product(b, d)))
}

// The greatest such product.
fn greatest(a: i64, b: i64, c: i64, d: i64) -> i128
    requires a_small { unsigned_abs a ≤ 2 ^ 34 }
    requires b_small { unsigned_abs b ≤ 2 ^ 34 }
    requires c_small { unsigned_abs c ≤ 2 ^ 40 }
    requires d_small { unsigned_abs d ≤ 2 ^ 40 }
    ensures value { result ≡ greatest_product a b c d }
    ensures small { unsigned_abs result ≤ 2 ^ 74 }
{
    product(a, c)
        .max(product(a, d))
        .max(product(b, c).max(product(b, d)))
}

/// The lower end of the point box less the eye, on one axis.
pub(crate) fn lower_end(at: i32, radius: u64, eye: i32) -> i64
    requires at_small { unsigned_abs at ≤ GREATEST_COORDINATE }
    requires radius_small { radius ≤ 2 ^ 38 }
    requires eye_small { unsigned_abs eye ≤ GREATEST_EYE_COORDINATE }
    ensures value { result ≡ at -ℤ pos radius -ℤ eye }
    ensures small { unsigned_abs result ≤ 2 ^ 40 }
{
    i64::from(at) - radius as i64 - i64::from(eye)
}

/// The upper end.
pub(crate) fn upper_end(at: i32, radius: u64, eye: i32) -> i64
    requires at_small { unsigned_abs at ≤ GREATEST_COORDINATE }
    requires radius_small { radius ≤ 2 ^ 38 }
    requires eye_small { unsigned_abs eye ≤ GREATEST_EYE_COORDINATE }
    ensures value { result ≡ at +ℤ pos radius -ℤ eye }
    ensures small { unsigned_abs result ≤ 2 ^ 40 }
{
    i64::from(at) + radius as i64 - i64::from(eye)
}

/// The least product on one axis.
pub fn least_on_axis(low: i64, high: i64, at: i32, radius: u64, eye: i32) -> i128
    requires low_small { unsigned_abs low ≤ 2 ^ 34 }
    requires high_small { unsigned_abs high ≤ 2 ^ 34 }
    requires at_small { unsigned_abs at ≤ GREATEST_COORDINATE }
    requires radius_small { radius ≤ 2 ^ 38 }
    requires eye_small { unsigned_abs eye ≤ GREATEST_EYE_COORDINATE }
    ensures value { result ≡ least_product low high (at -ℤ pos radius -ℤ eye)
        (at +ℤ pos radius -ℤ eye) }
    ensures small { unsigned_abs result ≤ 2 ^ 74 }
{
    least(
        low,
        high,
        lower_end(at, radius, eye),
        upper_end(at, radius, eye),
    )
}

/// The greatest product on one axis.
pub fn greatest_on_axis(low: i64, high: i64, at: i32, radius: u64, eye: i32) -> i128
    requires low_small { unsigned_abs low ≤ 2 ^ 34 }
    requires high_small { unsigned_abs high ≤ 2 ^ 34 }
    requires at_small { unsigned_abs at ≤ GREATEST_COORDINATE }
    requires radius_small { radius ≤ 2 ^ 38 }
    requires eye_small { unsigned_abs eye ≤ GREATEST_EYE_COORDINATE }
    ensures value { result ≡ greatest_product low high (at -ℤ pos radius -ℤ eye)
        (at +ℤ pos radius -ℤ eye) }
    ensures small { unsigned_abs result ≤ 2 ^ 74 }
{
    greatest(
        low,
        high,
        lower_end(at, radius, eye),
        upper_end(at, radius, eye),
    )
}

/// A sum of three such products.
pub fn add_three(a: i128, b: i128, c: i128) -> i128
    requires a_small { unsigned_abs a ≤ 2 ^ 74 }
    requires b_small { unsigned_abs b ≤ 2 ^ 74 }
    requires c_small { unsigned_abs c ≤ 2 ^ 74 }
    ensures { result ≡ a +ℤ b +ℤ c }
{
    a + b + c
}

//! Squares, and how large an error looks from the eye.
ghost use Rattle.std.specs.Prelude.{◌≡◌, ◌+◌, ◌*◌, ◌≤◌, ◌^◌, ◌-ℤ◌, nat_lt, unsigned_abs};
ghost use Rattle.pm_base.specs.declared.limits.TheConstants.{GREATEST_COORDINATE};
ghost use Rattle.pm_base.specs.Geometry.{square_of};
ghost use Rattle.pm_view.specs.declared.limits.TheConstants.{GREATEST_EYE_COORDINATE};
ghost use Rattle.pm_view.specs.declared.limits.TheConstants.{GREATEST_FOCAL_LENGTH};
ghost use Rattle.pm_view.specs.declared.limits.TheConstants.{GREATEST_TOLERANCE};

/// The squared difference of a coordinate and one of the eye.
pub fn squared_gap(at: i32, eye: i32) -> u64
    requires at_small { unsigned_abs at ≤ GREATEST_COORDINATE }
    requires eye_small { unsigned_abs eye ≤ GREATEST_EYE_COORDINATE }
    ensures value { result ≡ square_of (unsigned_abs (at -ℤ eye)) }
    ensures small { result ≤ 2 ^ 50 }
{
    let gap = u64::from(at.abs_diff(eye));
    gap * gap
}

/// A square that is far from overflow.
pub fn square(n: u64) -> u128
    requires { n ≤ 2 ^ 56 }
    ensures { result ≡ n * n }
{
    u128::from(n) * u128::from(n)
}

/// Whether (error focal + tol radius) squared is above tol tol times the squared distance from the
/// eye.
pub fn is_large(error: u64, radius: u64, focal: u32, tol: u32, distance2: u64) -> bool
    requires error_small { error ≤ 2 ^ 38 }
    requires radius_small { radius ≤ 2 ^ 38 }
    requires focal_small { focal ≤ GREATEST_FOCAL_LENGTH }
    requires tol_small { tol ≤ GREATEST_TOLERANCE }
    requires distance_small { distance2 ≤ 2 ^ 53 }
    ensures { result
        ≡ nat_lt (tol * tol * distance2)
        ((error * focal + tol * radius) * (error * focal + tol * radius)) }
{
    let size = error * u64::from(focal) + u64::from(tol) * radius;
    u128::from(u64::from(tol) * u64::from(tol)) * u128::from(distance2) < square(size)
}

//! Least squares with a ridge, by Cramer's rule. Numbers lose last binary digits, so that no
//! product leaves 128 bits, and where one is too large for that the slope is left out.
ghost use Rattle.std.specs.Prelude.{◌≡◌, true, ◌≤◌, ◌<◌, ◌-◌, ◌*◌, ◌^◌, pos, ◌+ℤ◌, unsigned_abs};
ghost use Rattle.pm_fine.specs.Within.{IsMatrixWithin};
ghost use Rattle.pm_fit.specs.Fit.{AreMoments, IsSpot, ridge_of, ridged, are_within};
ghost use Rattle.pm_fit.specs.Fit.{is_matrix_within, mean_of, risen, solved, fit_of};

use crate::slopes::{is_gentle, rise};
use crate::{Moments, Spot};
use pm_fine::{Matrix, Vector, near_wide, short};

fn add_three(a: i128, b: i128, c: i128) -> i128
    requires a_small { unsigned_abs a ≤ 2 ^ 120 }
    requires b_small { unsigned_abs b ≤ 2 ^ 120 }
    requires c_small { unsigned_abs c ≤ 2 ^ 120 }
    ensures value { result ≡ a +ℤ b +ℤ c }
    ensures small { unsigned_abs result ≤ 2 ^ 122 - 2 ^ 120 }
{
    a + b + c
}

fn one_more(a: i128) -> i128
    requires { unsigned_abs a ≤ 2 ^ 121 }
    ensures value { result ≡ a +ℤ pos 1 }
    ensures small { unsigned_abs result ≤ 2 ^ 122 }
{
    a + 1
}

fn plus(a: i128, b: i128) -> i128
    requires a_small { unsigned_abs a ≤ 2 ^ 122 }
    requires b_small { unsigned_abs b ≤ 2 ^ 122 }
    ensures value { result ≡ a +ℤ b }
    ensures small { unsigned_abs result ≤ 2 ^ 123 }
{
    a + b
}

// What is added to the diagonal.
fn ridge(a: &Matrix) -> i128
    requires { IsMatrixWithin (2 ^ 120) a.now }
    ensures value { result ≡ ridge_of a.now }
    ensures small { unsigned_abs result ≤ 2 ^ 122 }
{
    one_more(short(add_three(a.xx, a.yy, a.zz), 12))
}

// The matrix with a ridge.
fn with_ridge(a: &Matrix) -> Matrix
    requires { IsMatrixWithin (2 ^ 120) a.now }
    ensures { result ≡ ridged a.now }
{
    let ridge = ridge(a);
    Matrix {
        xx: plus(a.xx, ridge),
        xy: a.xy,
        xz: a.xz,
        yy: plus(a.yy, ridge),
        yz: a.yz,
        zz: plus(a.zz, ridge),
    }
}

fn are_within(a: i128, b: i128, c: i128, most: u128) -> bool
    ensures value { result ≡ are_within most a b c }
    ensures bounds { result ≡ true → (unsigned_abs a ≤ most) × (unsigned_abs b ≤ most)
        × (unsigned_abs c ≤ most) }
{
    a.unsigned_abs() <= most && b.unsigned_abs() <= most && c.unsigned_abs() <= most
}

// Whether no number of a matrix is further from 0 than `most`.
fn is_matrix_within(a: &Matrix, most: u128) -> bool
    ensures value { result ≡ is_matrix_within most a.now }
    ensures bounds { result ≡ true → IsMatrixWithin most a.now }
{
    are_within(a.xx, a.xy, a.xz, most) && are_within(a.yy, a.yz, a.zz, most)
}

// The mean of the numbers.
fn mean(m: &Moments) -> i128
    requires { AreMoments m.now }
    ensures value { result ≡ mean_of m.now }
    ensures small { unsigned_abs result ≤ 2 ^ 60 }
{
    near_wide(i128::from(m.numbers.w), u64::from(m.count))
}

fn sum_of(a: i128, b: i128) -> i128
    requires a_small { unsigned_abs a ≤ 2 ^ 69 }
    requires b_small { unsigned_abs b ≤ 2 ^ 69 }
    ensures value { result ≡ a +ℤ b }
    ensures small { unsigned_abs result ≤ 2 ^ 70 }
{
    a + b
}

// The mean and what the slope n / det adds, or the mean alone where the slope is steep.
#[tactic(auto, unfolding(crate::specs::Fit::risen))]
fn risen(m: &Moments, place: &Spot, n: &Vector, det: i128) -> i128
    requires moments { AreMoments m.now }
    requires place { IsSpot place.now }
    requires det_small { unsigned_abs det < 2 ^ 102 }
    ensures value { result ≡ risen m.now place.now n.now det }
    ensures small { unsigned_abs result ≤ 2 ^ 70 }
{
    if !is_gentle(n, det) {
        return mean(m);
    }
    sum_of(mean(m), rise(m, place, n, det))
}

// The same by the normal equations, whose solution is the slope.
#[tactic(auto, unfolding(crate::specs::Fit::solved))]
fn solved(m: &Moments, place: &Spot, a: &Matrix, g: &Vector) -> i128
    requires moments { AreMoments m.now }
    requires place { IsSpot place.now }
    ensures value { result ≡ solved m.now place.now a.now g.now }
    ensures small { unsigned_abs result ≤ 2 ^ 70 }
{
    if !is_matrix_within(a, 8_589_934_592) || !g.is_within(4_503_599_627_370_495) {
        return mean(m);
    }
    let cofactors = a.cofactors();
    let det = a.determinant(&cofactors);
    risen(m, place, &cofactors.times(g), det)
}

/// The number at a place by the linear map that fits the sums best. It takes constant time and no
/// memory.
#[tactic(auto, unfolding(crate::specs::Fit::fit_of))]
pub fn fit(m: &Moments, place: &Spot) -> i128
    requires moments { AreMoments m.now }
    requires place { IsSpot place.now }
    ensures value { result ≡ fit_of m.now place.now }
    ensures small { unsigned_abs result ≤ 2 ^ 70 }
{
    let a = with_ridge(&m.matrix());
    let digits = a.digits();
    solved(m, place, &a.short(digits), &m.slope().short(digits))
}

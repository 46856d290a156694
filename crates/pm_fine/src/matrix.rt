//! Symmetric matrices of three rows and vectors of three numbers, and what Cramer's rule takes of
//! them.
ghost use Rattle.std.specs.Prelude.{ℕ, ◌≡◌, true, ◌<◌, ◌≤◌, ◌+◌, ◌-◌, ◌*◌, ◌/◌, ◌^◌};
ghost use Rattle.std.specs.Prelude.{◌-ℤ◌, ◌+ℤ◌, ◌*ℤ◌, unsigned_abs};
ghost use Rattle.std.specs.Int.{int_shr};
ghost use Rattle.pm_fine.specs.Fourth.{half, digits_above, matrix_digits, short_matrix, short};
ghost use Rattle.pm_fine.specs.Fourth.{cofactors_of, determinant_of, times_of, is_within, reversed};
ghost use Rattle.pm_fine.specs.Within.{IsMatrixWithin, IsVectorWithin};

use crate::terms::add_three;

/// The numbers on and above the diagonal of a symmetric matrix.
#[derive(Clone, Copy)]
pub struct Matrix {
    pub xx: i128,
    pub xy: i128,
    pub xz: i128,
    pub yy: i128,
    pub yz: i128,
    pub zz: i128,
}

/// Three numbers.
#[derive(Clone, Copy)]
pub struct Vector {
    pub x: i128,
    pub y: i128,
    pub z: i128,
}

/// Half of an even number.
pub(crate) fn half(v: i128) -> i128
    ensures value { result ≡ half v }
    ensures within { (m : ℕ) → unsigned_abs v ≤ m + m → unsigned_abs result ≤ m }
{
    v.div_euclid(2)
}

/// How many binary digits a number has above its last `keep`.
pub fn digits_above(keep: u32, n: u128) -> u32
    requires some { 0 < keep }
    ensures value { result ≡ digits_above keep n }
    ensures small { result < 128 }
    ensures kept { n / 2 ^ result < 2 ^ keep }
    ensures first { 0 < n → 0 < n / 2 ^ result }
{
    (128 - n.leading_zeros()).saturating_sub(keep)
}

/// A number without its last digits, rounded down.
pub fn short(v: i128, digits: u32) -> i128
    requires { digits < 128 }
    ensures value { result ≡ int_shr v digits }
    ensures within { (m : ℕ) → unsigned_abs v ≤ m * 2 ^ digits → unsigned_abs result ≤ m }
{
    v >> digits
}

// A product that is small enough to be added to others.
fn product(a: i128, b: i128) -> i128
    requires { unsigned_abs a * unsigned_abs b ≤ 2 ^ 122 }
    ensures value { result ≡ a *ℤ b }
    ensures small { unsigned_abs result ≤ unsigned_abs a * unsigned_abs b }
{
    a * b
}

// The difference of two products of numbers of a matrix.
fn minus(a: i128, b: i128) -> i128
    requires a_small { unsigned_abs a ≤ 2 ^ 66 }
    requires b_small { unsigned_abs b ≤ 2 ^ 66 }
    ensures value { result ≡ a -ℤ b }
    ensures small { unsigned_abs result ≤ 2 ^ 67 }
{
    a - b
}

// A determinant of two rows.
fn minor(a: i128, b: i128, c: i128, d: i128) -> i128
    requires a_small { unsigned_abs a ≤ 2 ^ 33 }
    requires b_small { unsigned_abs b ≤ 2 ^ 33 }
    requires c_small { unsigned_abs c ≤ 2 ^ 33 }
    requires d_small { unsigned_abs d ≤ 2 ^ 33 }
    ensures value { result ≡ a *ℤ b -ℤ c *ℤ d }
    ensures small { unsigned_abs result ≤ 2 ^ 67 }
{
    minus(product(a, b), product(c, d))
}

// The product of a row of a matrix and a vector.
fn row(a: i128, b: i128, c: i128, u: &Vector) -> i128
    requires first { unsigned_abs a * unsigned_abs u.now.x ≤ 2 ^ 122 }
    requires second { unsigned_abs b * unsigned_abs u.now.y ≤ 2 ^ 122 }
    requires third { unsigned_abs c * unsigned_abs u.now.z ≤ 2 ^ 122 }
    ensures { result ≡ a *ℤ u.now.x +ℤ b *ℤ u.now.y +ℤ c *ℤ u.now.z }
{
    add_three(product(a, u.x), product(b, u.y), product(c, u.z))
}

impl Matrix {
    /// How many digits to drop, so that the diagonal keeps at most 33.
    pub fn digits(&self) -> u32
        ensures value { result ≡ matrix_digits self.now }
        ensures small { result < 128 }
        ensures xx { unsigned_abs self.now.xx ≤ 2 ^ 33 * 2 ^ result }
        ensures yy { unsigned_abs self.now.yy ≤ 2 ^ 33 * 2 ^ result }
        ensures zz { unsigned_abs self.now.zz ≤ 2 ^ 33 * 2 ^ result }
    {
        let xx = self.xx.unsigned_abs();
        let yy = self.yy.unsigned_abs();
        let zz = self.zz.unsigned_abs();
        digits_above(33, xx.max(yy).max(zz))
    }

    /// Its numbers without their last digits.
    pub fn short(&self, digits: u32) -> Matrix
        requires { digits < 128 }
        ensures value { result ≡ short_matrix digits self.now }
        ensures within { (m : ℕ) → IsMatrixWithin (m * 2 ^ digits) self.now
            → IsMatrixWithin m result }
    {
        Matrix {
            xx: short(self.xx, digits),
            xy: short(self.xy, digits),
            xz: short(self.xz, digits),
            yy: short(self.yy, digits),
            yz: short(self.yz, digits),
            zz: short(self.zz, digits),
        }
    }

    /// The cofactors.
    pub fn cofactors(&self) -> Matrix
        requires { IsMatrixWithin (2 ^ 33) self.now }
        ensures value { result ≡ cofactors_of self.now }
        ensures small { IsMatrixWithin (2 ^ 67) result }
    {
        Matrix {
            xx: minor(self.yy, self.zz, self.yz, self.yz),
            xy: minor(self.xz, self.yz, self.xy, self.zz),
            xz: minor(self.xy, self.yz, self.xz, self.yy),
            yy: minor(self.xx, self.zz, self.xz, self.xz),
            yz: minor(self.xy, self.xz, self.xx, self.yz),
            zz: minor(self.xx, self.yy, self.xy, self.xy),
        }
    }

    /// The determinant, by its cofactors.
    pub fn determinant(&self, cofactors: &Matrix) -> i128
        requires own { IsMatrixWithin (2 ^ 33) self.now }
        requires cofactors { cofactors.now ≡ cofactors_of self.now }
        requires small { IsMatrixWithin (2 ^ 67) cofactors.now }
        ensures value { result ≡ determinant_of self.now }
        ensures small { unsigned_abs result < 2 ^ 102 }
    {
        let first = Vector {
            x: cofactors.xx,
            y: cofactors.xy,
            z: cofactors.xz,
        };
        row(self.xx, self.xy, self.xz, &first)
    }

    /// Its product with a vector.
    pub fn times(&self, u: &Vector) -> Vector
        requires own { IsMatrixWithin (2 ^ 67) self.now }
        requires vector { IsVectorWithin (2 ^ 52 - 1) u.now }
        ensures { result ≡ times_of self.now u.now }
    {
        Vector {
            x: row(self.xx, self.xy, self.xz, u),
            y: row(self.xy, self.yy, self.yz, u),
            z: row(self.xz, self.yz, self.zz, u),
        }
    }
}

impl Vector {
    /// The numbers without their last digits.
    pub fn short(&self, digits: u32) -> Vector
        requires { digits < 128 }
        ensures { result ≡ short digits self.now }
    {
        Vector {
            x: short(self.x, digits),
            y: short(self.y, digits),
            z: short(self.z, digits),
        }
    }

    /// Whether no number is further from 0 than `most`.
    pub fn is_within(&self, most: u128) -> bool
        ensures value { result ≡ is_within most self.now }
        ensures bounds { result ≡ true → IsVectorWithin most self.now }
    {
        self.x.unsigned_abs() <= most
            && self.y.unsigned_abs() <= most
            && self.z.unsigned_abs() <= most
    }

    /// The other way.
    pub fn reversed(&self) -> Vector
        requires { IsVectorWithin (2 ^ 52 - 1) self.now }
        ensures value { result ≡ reversed self.now }
        ensures small { IsVectorWithin (2 ^ 52 - 1) result }
    {
        Vector {
            x: -self.x,
            y: -self.y,
            z: -self.z,
        }
    }
}

//! Sums over places and their numbers, and how far they spread.
ghost use Rattle.std.specs.Prelude.{◌≡◌, ◌≤◌, ◌*◌, ◌^◌, pos, ◌-ℤ◌, unsigned_abs};
ghost use Rattle.pm_fine.specs.Within.{IsMatrixWithin, IsVectorWithin};
ghost use Rattle.pm_fit.specs.Fit.{AreMoments, spread_of, matrix_of, slope_of};

use pm_fine::{Matrix, Vector};

/// A place, with 32,767 added to each coordinate, so that none is below 0.
#[derive(Clone, Copy)]
pub struct Spot {
    pub x: u32,
    pub y: u32,
    pub z: u32,
}

/// Sums over spots: of their coordinates, and of the products of two coordinates.
#[derive(Clone, Copy)]
pub struct PlaceSums {
    pub x: u64,
    pub y: u64,
    pub z: u64,
    pub xx: u64,
    pub xy: u64,
    pub xz: u64,
    pub yy: u64,
    pub yz: u64,
    pub zz: u64,
}

/// Sums over spots that have numbers w: of these, and of their products with a coordinate.
#[derive(Clone, Copy)]
pub struct NumberSums {
    pub w: u64,
    pub wx: u64,
    pub wy: u64,
    pub wz: u64,
}

/// How many spots there are, and sums over them.
#[derive(Clone, Copy)]
pub struct Moments {
    pub count: u32,
    pub places: PlaceSums,
    pub numbers: NumberSums,
}

// A product of two sums.
fn product(a: u64, b: u64) -> u128
    requires a_small { a ≤ 2 ^ 60 }
    requires b_small { b ≤ 2 ^ 60 }
    ensures value { result ≡ a * b }
    ensures small { result ≤ 2 ^ 120 }
{
    u128::from(a) * u128::from(b)
}

// The difference of two products.
fn minus(a: u128, b: u128) -> i128
    requires a_small { a ≤ 2 ^ 120 }
    requires b_small { b ≤ 2 ^ 120 }
    ensures value { result ≡ pos a -ℤ pos b }
    ensures small { unsigned_abs result ≤ 2 ^ 120 }
{
    a as i128 - b as i128
}

// The count times a sum of products, less the product of two sums.
fn spread(count: u32, products: u64, a: u64, b: u64) -> i128
    requires products_small { products ≤ 2 ^ 60 }
    requires a_small { a ≤ 2 ^ 60 }
    requires b_small { b ≤ 2 ^ 60 }
    ensures value { result ≡ spread_of count products a b }
    ensures small { unsigned_abs result ≤ 2 ^ 120 }
{
    minus(product(u64::from(count), products), product(a, b))
}

impl Moments {
    /// How the places spread.
    pub(crate) fn matrix(&self) -> Matrix
        requires { AreMoments self.now }
        ensures value { result ≡ matrix_of self.now }
        ensures small { IsMatrixWithin (2 ^ 120) result }
    {
        let sums = &self.places;
        Matrix {
            xx: spread(self.count, sums.xx, sums.x, sums.x),
            xy: spread(self.count, sums.xy, sums.x, sums.y),
            xz: spread(self.count, sums.xz, sums.x, sums.z),
            yy: spread(self.count, sums.yy, sums.y, sums.y),
            yz: spread(self.count, sums.yz, sums.y, sums.z),
            zz: spread(self.count, sums.zz, sums.z, sums.z),
        }
    }

    /// How the numbers go with the places.
    pub(crate) fn slope(&self) -> Vector
        requires { AreMoments self.now }
        ensures value { result ≡ slope_of self.now }
        ensures small { IsVectorWithin (2 ^ 120) result }
    {
        let numbers = &self.numbers;
        Vector {
            x: spread(self.count, numbers.wx, numbers.w, self.places.x),
            y: spread(self.count, numbers.wy, numbers.w, self.places.y),
            z: spread(self.count, numbers.wz, numbers.w, self.places.z),
        }
    }
}

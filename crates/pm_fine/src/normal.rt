//! Normals whose length is chosen.
ghost use Rattle.std.specs.Prelude.{◌≡◌, ◌≤◌, ◌^◌, pos, ◌*ℤ◌, unsigned_abs};
ghost use Rattle.pm_fine.specs.Rounded.{near};
ghost use Rattle.pm_fine.specs.Normals.{IsWithin, IsFineNormal, no_direction, doubled, halved};

use std::marker::Model;

/// A vector square to a plane, whose length is the weight of the plane. Its numbers are from -2^27
/// to 2^27.
#[derive(Clone, Copy, Debug, PartialEq, Eq)]
pub struct FineNormal {
    x: i32,
    y: i32,
    z: i32,
}

impl Model for FineNormal {
    ghost use Rattle.pm_base.specs.Geometry.{Direction};
    ghost use Rattle.pm_fine.specs.Normals.{IsFineNormal};

    ghost Value = { Direction };

    ghost view = { λ n. record { x = n.x; y = n.y; z = n.z } };

    ghost invariant = { λ n. IsFineNormal (record { x = n.x; y = n.y; z = n.z }) };

    ghost inverse = { λ n. record { x = n.x; y = n.y; z = n.z } };
}

// Twice a number.
fn twice(a: i32) -> i32
    requires { unsigned_abs a ≤ 2 ^ 26 }
    ensures value { result ≡ pos 2 *ℤ a }
    ensures small { unsigned_abs result ≤ 2 ^ 27 }
{
    2 * a
}

// Half a number, rounded to the nearest whole one.
#[tactic(auto, using(crate::proofs::NearLaws::near_small))]
fn half_of(a: i32) -> i32
    requires { unsigned_abs a ≤ 2 ^ 27 }
    ensures value { result ≡ near a 2 }
    ensures small { unsigned_abs result ≤ 2 ^ 26 }
{
    (2 * a + 2).div_euclid(4)
}

impl FineNormal {
    /// The normal of no plane.
    pub fn zero() -> FineNormal
        ensures { result ≡ no_direction }
    {
        FineNormal { x: 0, y: 0, z: 0 }
    }

    pub(crate) fn new(x: i32, y: i32, z: i32) -> FineNormal
        requires { IsFineNormal (record { x = x; y = y; z = z }) }
        ensures { result ≡ record { x = x; y = y; z = z } }
    {
        FineNormal { x, y, z }
    }

    pub fn x(&self) -> i32
        ensures value { result ≡ self.now.x }
        ensures in_range { IsFineNormal self.now }
    {
        self.x
    }

    pub fn y(&self) -> i32
        ensures value { result ≡ self.now.y }
        ensures in_range { IsFineNormal self.now }
    {
        self.y
    }

    pub fn z(&self) -> i32
        ensures value { result ≡ self.now.z }
        ensures in_range { IsFineNormal self.now }
    {
        self.z
    }

    /// A normal of half the length, whose plane weighs a quarter as much: each number is rounded.
    pub fn halved(&self) -> FineNormal
        ensures { result ≡ halved self.now }
    {
        FineNormal {
            x: half_of(self.x),
            y: half_of(self.y),
            z: half_of(self.z),
        }
    }

    /// A normal of twice the length, whose plane weighs four times as much.
    pub fn doubled(&self) -> FineNormal
        requires { IsWithin (2 ^ 26) self.now }
        ensures { result ≡ doubled self.now }
    {
        FineNormal {
            x: twice(self.x),
            y: twice(self.y),
            z: twice(self.z),
        }
    }
}

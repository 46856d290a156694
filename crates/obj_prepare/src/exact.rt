//! Points in units of 10^-18, as texts spell them.
ghost use Rattle.std.specs.Prelude.{◌≡◌, ◌≤◌, ◌^◌, true, false, unsigned_abs, IfSome, OnSome};
ghost use Rattle.std.specs.Prelude.{IfNone};
ghost use Rattle.std.specs.Int.{int_min, int_max};
ghost use Rattle.obj_prepare.specs.Exact.{is_exact, are_exact, AreExact, lower, upper};

use crate::digits::GREATEST;
use std::marker::Model;

/// A point in units of 10^-18. Each coordinate is at most 10^32 units away from 0, which the type
/// keeps.
#[derive(Clone, Copy, Debug, PartialEq, Eq)]
pub struct ExactPoint {
    x: i128,
    y: i128,
    z: i128,
}

impl Model for ExactPoint {
    ghost use Rattle.pm_base.specs.Place.{Place};
    ghost use Rattle.obj_prepare.specs.Exact.{AreExact};

    ghost Value = { Place };

    ghost view = { λ p. record { x = p.x; y = p.y; z = p.z } };

    ghost invariant = { λ p. AreExact (record { x = p.x; y = p.y; z = p.z }) };

    ghost inverse = { λ p. record { x = p.x; y = p.y; z = p.z } };
}

fn is_exact(n: i128) -> bool
    ensures { result ≡ is_exact n }
{
    n.unsigned_abs() <= GREATEST
}

fn lesser(x: i128, y: i128) -> i128
    requires x { unsigned_abs x ≤ 10 ^ 32 }
    requires y { unsigned_abs y ≤ 10 ^ 32 }
    ensures value { result ≡ int_min x y }
    ensures small { unsigned_abs result ≤ 10 ^ 32 }
{
    if x < y { x } else { y }
}

fn greater(x: i128, y: i128) -> i128
    requires x { unsigned_abs x ≤ 10 ^ 32 }
    requires y { unsigned_abs y ≤ 10 ^ 32 }
    ensures value { result ≡ int_max x y }
    ensures small { unsigned_abs result ≤ 10 ^ 32 }
{
    if x < y { y } else { x }
}

impl ExactPoint {
    /// The point with these coordinates in units; none exactly where one of them is out of range.
    pub fn new(x: i128, y: i128, z: i128) -> Option<ExactPoint>
        ensures some { IfSome result (λ p. p ≡ record { x = x; y = y; z = z }) }
        ensures in_range { OnSome result (are_exact (record { x = x; y = y; z = z }) ≡ true) }
        ensures none { IfNone result (are_exact (record { x = x; y = y; z = z }) ≡ false) }
    {
        if is_exact(x) && is_exact(y) && is_exact(z) {
            Some(ExactPoint { x, y, z })
        } else {
            None
        }
    }

    pub fn x(&self) -> i128
        ensures value { result ≡ self.now.x }
        ensures in_range { AreExact self.now }
    {
        self.x
    }

    pub fn y(&self) -> i128
        ensures value { result ≡ self.now.y }
        ensures in_range { AreExact self.now }
    {
        self.y
    }

    pub fn z(&self) -> i128
        ensures value { result ≡ self.now.z }
        ensures in_range { AreExact self.now }
    {
        self.z
    }

    /// The lesser coordinate of two points on each axis.
    pub fn lower(&self, other: &ExactPoint) -> ExactPoint
        ensures { result ≡ lower self.now other.now }
    {
        ExactPoint {
            x: lesser(self.x, other.x),
            y: lesser(self.y, other.y),
            z: lesser(self.z, other.z),
        }
    }

    /// The greater coordinate of two points on each axis.
    pub fn upper(&self, other: &ExactPoint) -> ExactPoint
        ensures { result ≡ upper self.now other.now }
    {
        ExactPoint {
            x: greater(self.x, other.x),
            y: greater(self.y, other.y),
            z: greater(self.z, other.z),
        }
    }
}

//! Points of the grid.
ghost use Rattle.std.specs.Prelude.{◌≡◌, true, false, IfSome, OnSome, IfNone};
ghost use Rattle.pm_base.specs.Place.{IsPlace, is_coordinate, is_place};

use crate::Items;
use crate::limits::GREATEST_COORDINATE;
use std::marker::Model;

/// A point of the whole-number grid. Each coordinate is from -32,767 to 32,767, which the type
/// keeps.
#[derive(Clone, Copy, Debug, PartialEq, Eq)]
pub struct Point {
    x: i16,
    y: i16,
    z: i16,
}

impl Model for Point {
    ghost use Rattle.pm_base.specs.Place.{Place, IsPlace};

    ghost Value = { Place };

    ghost view = { λ p. record { x = p.x; y = p.y; z = p.z } };

    ghost invariant = { λ p. IsPlace (record { x = p.x; y = p.y; z = p.z }) };

    ghost inverse = { λ p. record { x = p.x; y = p.y; z = p.z } };
}

/// A list of points.
pub type Points = Items<Point>;

fn is_coordinate(n: i32) -> bool
    ensures { result ≡ is_coordinate n }
{
    n.unsigned_abs() <= GREATEST_COORDINATE
}

impl Point {
    /// The point with these coordinates; none exactly where one of them is out of range.
    pub fn new(x: i32, y: i32, z: i32) -> Option<Point>
        ensures some { IfSome result (λ p. p ≡ record { x = x; y = y; z = z }) }
        ensures in_range { OnSome result (is_place (record { x = x; y = y; z = z }) ≡ true) }
        ensures none { IfNone result (is_place (record { x = x; y = y; z = z }) ≡ false) }
    {
        if is_coordinate(x) && is_coordinate(y) && is_coordinate(z) {
            Some(Point {
                x: x as i16,
                y: y as i16,
                z: z as i16,
            })
        } else {
            None
        }
    }

    pub fn x(&self) -> i32
        ensures value { result ≡ self.now.x }
        ensures in_range { IsPlace self.now }
    {
        i32::from(self.x)
    }

    pub fn y(&self) -> i32
        ensures value { result ≡ self.now.y }
        ensures in_range { IsPlace self.now }
    {
        i32::from(self.y)
    }

    pub fn z(&self) -> i32
        ensures value { result ≡ self.now.z }
        ensures in_range { IsPlace self.now }
    {
        i32::from(self.z)
    }
}

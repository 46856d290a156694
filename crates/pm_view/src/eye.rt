//! Where a view looks from.
ghost use Rattle.std.specs.Prelude.{Bool, ◌≡◌, ◌≤◌, ◌^◌, ℕ, true, false, pos, int_le};
ghost use Rattle.std.specs.Prelude.{IfSome, OnSome, IfNone};
ghost use Rattle.pm_base.specs.Geometry.{dist2_of};
ghost use Rattle.pm_bounds.specs.Boxes.{IsSmallBox};
ghost use Rattle.pm_bounds.specs.declared.normal_box.NormalBox.{NormalBox};
ghost use Rattle.pm_view.specs.declared.small_ball.TheConstants.{SMALL_RADIUS};
ghost use Rattle.pm_view.specs.Views.{is_eye};
ghost use Rattle.pm_view.specs.Wanted.{least_facing, greatest_facing, may_turn_away};

use crate::facing::{add_three, greatest_on_axis, least_on_axis};
use crate::limits::{GREATEST_EYE_COORDINATE, is_within};
use crate::size::squared_gap;
use crate::small_ball::{SMALL_RADIUS, add_three_small, least_in_small_ball};
use pm_base::Point;
use pm_bounds::NormalBox;
use std::marker::Model;

/// The eye of a view. Each of its numbers is from -16,777,215 to 16,777,215, which the type keeps.
#[derive(Clone, Copy, Debug, PartialEq, Eq)]
pub(crate) struct Eye {
    x: i32,
    y: i32,
    z: i32,
}

impl Model for Eye {
    ghost use Rattle.pm_base.specs.Place.{Place};
    ghost use Rattle.pm_view.specs.Views.{IsEye};

    ghost Value = { Place };

    ghost view = { λ e. record { x = e.x; y = e.y; z = e.z } };

    ghost invariant = { λ e. IsEye (record { x = e.x; y = e.y; z = e.z }) };

    ghost inverse = { λ e. record { x = e.x; y = e.y; z = e.z } };
}

impl Eye {
    // The eye of these numbers; none exactly where one of them is out of range.
    pub(crate) fn new(x: i32, y: i32, z: i32) -> Option<Eye>
        ensures some { IfSome result (λ e. e ≡ record { x = x; y = y; z = z }) }
        ensures in_range { OnSome result (is_eye (record { x = x; y = y; z = z }) ≡ true) }
        ensures none { IfNone result (is_eye (record { x = x; y = y; z = z }) ≡ false) }
    {
        if is_within(x, GREATEST_EYE_COORDINATE)
            && is_within(y, GREATEST_EYE_COORDINATE)
            && is_within(z, GREATEST_EYE_COORDINATE)
        {
            Some(Eye { x, y, z })
        } else {
            None
        }
    }

    // The squared distance of a place from the eye.
    pub(crate) fn squared_distance(&self, place: Point) -> u64
        ensures value { result ≡ dist2_of place self.now }
        ensures small { result ≤ 2 ^ 53 }
    {
        squared_gap(place.x(), self.x)
            + squared_gap(place.y(), self.y)
            + squared_gap(place.z(), self.z)
    }

    // The least that the product of a normal in the box and a way from the eye into the ball can
    // be.
    fn least_facing(&self, place: Point, radius: u64, normals: NormalBox) -> i128
        requires radius_small { radius ≤ 2 ^ 38 }
        requires box_small { IsSmallBox normals }
        ensures { (error deviation : ℕ) (two_sided : Bool)
            → result ≡ least_facing (record {
              place = place;
              error = error;
              deviation = deviation;
              radius = radius;
              box = normals;
              two_sided = two_sided;
            }) self.now }
    {
        let (low, high) = (normals.low, normals.high);
        let x = least_on_axis(low.x, high.x, place.x(), radius, self.x);
        let y = least_on_axis(low.y, high.y, place.y(), radius, self.y);
        let z = least_on_axis(low.z, high.z, place.z(), radius, self.z);
        add_three(x, y, z)
    }

    // The same for a small ball, in 64 bits.
    fn least_facing_small_ball(&self, place: Point, radius: u64, normals: NormalBox) -> i64
        requires radius_small { radius ≤ SMALL_RADIUS }
        requires box_small { IsSmallBox normals }
        ensures { (error deviation : ℕ) (two_sided : Bool)
            → result ≡ least_facing (record {
              place = place;
              error = error;
              deviation = deviation;
              radius = radius;
              box = normals;
              two_sided = two_sided;
            }) self.now }
    {
        let (low, high) = (normals.low, normals.high);
        let x = least_in_small_ball(low.x, high.x, place.x(), radius, self.x);
        let y = least_in_small_ball(low.y, high.y, place.y(), radius, self.y);
        let z = least_in_small_ball(low.z, high.z, place.z(), radius, self.z);
        add_three_small(x, y, z)
    }

    // Whether a face in the ball, with its normal in the box, may be turned to the eye.
    pub(crate) fn may_face(&self, place: Point, radius: u64, normals: NormalBox) -> bool
        requires radius_small { radius ≤ 2 ^ 38 }
        requires box_small { IsSmallBox normals }
        ensures { (error deviation : ℕ) (two_sided : Bool)
            → result ≡ int_le
            (least_facing (record {
              place = place;
              error = error;
              deviation = deviation;
              radius = radius;
              box = normals;
              two_sided = two_sided;
            }) self.now) (pos 0) }
    {
        if radius <= SMALL_RADIUS {
            self.least_facing_small_ball(place, radius, normals) <= 0
        } else {
            self.least_facing(place, radius, normals) <= 0
        }
    }

    // The greatest that the product of a normal in the box and a way from the eye into the ball can
    // be.
    fn greatest_facing(&self, place: Point, radius: u64, normals: NormalBox) -> i128
        requires radius_small { radius ≤ 2 ^ 38 }
        requires box_small { IsSmallBox normals }
        ensures { (error deviation : ℕ) (two_sided : Bool)
            → result ≡ greatest_facing
            (record {
              place = place;
              error = error;
              deviation = deviation;
              radius = radius;
              box = normals;
              two_sided = two_sided;
            }) self.now }
    {
        let (low, high) = (normals.low, normals.high);
        let x = greatest_on_axis(low.x, high.x, place.x(), radius, self.x);
        let y = greatest_on_axis(low.y, high.y, place.y(), radius, self.y);
        let z = greatest_on_axis(low.z, high.z, place.z(), radius, self.z);
        add_three(x, y, z)
    }

    // Whether a face in the ball, with its normal in the box, may be turned away from the eye.
    pub(crate) fn may_turn_away(&self, place: Point, radius: u64, normals: NormalBox) -> bool
        requires radius_small { radius ≤ 2 ^ 38 }
        requires box_small { IsSmallBox normals }
        ensures { (error deviation : ℕ) (two_sided : Bool)
            → result ≡ may_turn_away (record {
              place = place;
              error = error;
              deviation = deviation;
              radius = radius;
              box = normals;
              two_sided = two_sided;
            }) self.now }
    {
        self.greatest_facing(place, radius, normals) >= 0
    }
}

//! Views, and what each of their tests asks.
ghost use Rattle.std.specs.Prelude.{◌≡◌, ◌≤◌, ◌^◌, ◌&&◌, ◌||◌, ℕ, nat_le, true, false, pos, int_le};
ghost use Rattle.std.specs.Prelude.{Bool, IfSome, OnSome, IfNone};
ghost use Rattle.std.specs.List.{list_all};
ghost use Rattle.pm_bounds.specs.Boxes.{IsSmallBox};
ghost use Rattle.pm_view.specs.declared.limits.TheConstants.{GREATEST_FOCAL_LENGTH};
ghost use Rattle.pm_view.specs.declared.limits.TheConstants.{GREATEST_TOLERANCE};
ghost use Rattle.pm_view.specs.Views.{IsEye, is_plane, are_tolerances, is_view, by_deviation};
ghost use Rattle.pm_view.specs.Wanted.{Bounded, is_outside_any, least_facing, may_turn_away};
ghost use Rattle.pm_view.specs.Wanted.{looks_larger};

use crate::eye::Eye;
use crate::limits::{GREATEST_FOCAL_LENGTH, GREATEST_TOLERANCE};
use crate::plane::{are_planes, is_outside_any};
use crate::size::is_large;
use crate::{Measure, Plane};
use arrayvec::ArrayVec;
use pm_base::Point;
use pm_bounds::NormalBox;
use std::marker::Model;

/// What is looked at: by which number of a node, from where, how finely, and in front of which
/// planes. The numbers are in range, which the type keeps: the eye's are at most 16,777,215 away
/// from 0, focal length and tolerance at most 65,535, the tolerance for outlines at most the
/// tolerance, the numbers a, b and c of a plane at most 32,767 away from 0, and d at most
/// 4,398,046,511,104.
#[derive(Drop)]
pub struct View {
    measure: Measure,
    eye: Eye,
    focal: u32,
    tol: u32,
    sil: u32,
    planes: ArrayVec<Plane, 6>,
}

impl Model for View {
    ghost use Rattle.pm_view.specs.Views.{View, IsView};

    ghost Value = { View };

    ghost view = { λ v. record {
      measure = v.measure;
      eye = v.eye;
      focal = v.focal;
      tol = v.tol;
      sil = v.sil;
      planes = v.planes.items;
    } };

    ghost invariant = { λ v. IsView
        (record {
          measure = v.measure;
          eye = v.eye;
          focal = v.focal;
          tol = v.tol;
          sil = v.sil;
          planes = v.planes.items;
        }) };
}

fn are_tolerances(tol: u32, sil: u32) -> bool
    ensures { result ≡ are_tolerances tol sil }
{
    tol <= GREATEST_TOLERANCE && sil <= tol
}

fn are_in_range(focal: u32, tol: u32, sil: u32, planes: &[Plane]) -> bool
    ensures { result
        ≡ (nat_le focal GREATEST_FOCAL_LENGTH && are_tolerances tol sil && list_all is_plane
        planes.now) }
{
    focal <= GREATEST_FOCAL_LENGTH && are_tolerances(tol, sil) && are_planes(planes)
}

impl View {
    /// The view by errors of these numbers; none exactly where one of them is out of range or `sil`
    /// is above `tol`. It takes no memory.
    pub fn new(
        ex: i32,
        ey: i32,
        ez: i32,
        focal: u32,
        tol: u32,
        sil: u32,
        planes: ArrayVec<Plane, 6>,
    ) -> Option<View>
        ensures some { IfSome result
            (λ v. v ≡ record {
              measure = Measure.Error;
              eye = record { x = ex; y = ey; z = ez };
              focal = focal;
              tol = tol;
              sil = sil;
              planes = planes.items;
            }) }
        ensures in_range { OnSome result
            (is_view (record {
              measure = Measure.Error;
              eye = record { x = ex; y = ey; z = ez };
              focal = focal;
              tol = tol;
              sil = sil;
              planes = planes.items;
            }) ≡ true) }
        ensures none { IfNone result
            (is_view (record {
              measure = Measure.Error;
              eye = record { x = ex; y = ey; z = ez };
              focal = focal;
              tol = tol;
              sil = sil;
              planes = planes.items;
            }) ≡ false) }
    {
        let eye = Eye::new(ex, ey, ez)?;
        if are_in_range(focal, tol, sil, planes.as_slice()) {
            Some(View {
                measure: Measure::Error,
                eye,
                focal,
                tol,
                sil,
                planes,
            })
        } else {
            None
        }
    }

    // The view by errors of numbers that are in range.
    pub(crate) fn within_range(
        eye: Eye,
        focal: u32,
        tol: u32,
        sil: u32,
        planes: ArrayVec<Plane, 6>,
    ) -> View
        requires eye { IsEye eye }
        requires focal { focal ≤ GREATEST_FOCAL_LENGTH }
        requires tol { tol ≤ GREATEST_TOLERANCE }
        requires sil { sil ≤ tol }
        requires planes { list_all is_plane planes.items ≡ true }
        ensures { result ≡ record {
          measure = Measure.Error;
          eye = eye;
          focal = focal;
          tol = tol;
          sil = sil;
          planes = planes.items;
        } }
    {
        View {
            measure: Measure::Error,
            eye,
            focal,
            tol,
            sil,
            planes,
        }
    }

    // Whether the whole ball round a place lies behind a plane.
    pub(crate) fn is_behind(&self, place: Point, radius: u64) -> bool
        requires { radius ≤ 2 ^ 38 }
        ensures { result ≡ is_outside_any self.now.planes place radius }
    {
        is_outside_any(self.planes.as_slice(), place, radius)
    }

    // Whether a face in the ball, with its normal in the box, may be turned to the eye, unless both
    // sides are seen; and, unless the node is large without an outline too, whether one may be
    // turned away.
    pub(crate) fn may_show(
        &self,
        place: Point,
        radius: u64,
        normals: NormalBox,
        sees_both: bool,
        is_large: bool,
    ) -> bool
        requires radius_small { radius ≤ 2 ^ 38 }
        requires box_small { IsSmallBox normals }
        ensures { (error deviation : ℕ) (two_sided : Bool)
            → let b : Bounded = record {
              place = place;
              error = error;
              deviation = deviation;
              radius = radius;
              box = normals;
              two_sided = two_sided;
            } in
            result ≡ ((sees_both || int_le (least_facing b self.now.eye) (pos 0)) &&
            (is_large || may_turn_away b self.now.eye)) }
    {
        (sees_both || self.eye.may_face(place, radius, normals))
            && (is_large || self.eye.may_turn_away(place, radius, normals))
    }

    // Whether a size in a ball looks larger than a tolerance.
    #[tactic(auto, unfolding(crate::specs::Wanted::looks_larger))]
    fn looks_larger_than(&self, tol: u32, place: Point, size: u64, radius: u64) -> bool
        requires tol_small { tol ≤ GREATEST_TOLERANCE }
        requires size_small { size ≤ 2 ^ 38 }
        requires radius_small { radius ≤ 2 ^ 38 }
        ensures { result ≡ looks_larger size place radius self.now tol }
    {
        is_large(
            size,
            radius,
            self.focal,
            tol,
            self.eye.squared_distance(place),
        )
    }

    // Whether the size of a node looks larger than the tolerance.
    pub(crate) fn looks_large(&self, place: Point, size: u64, radius: u64) -> bool
        requires size_small { size ≤ 2 ^ 38 }
        requires radius_small { radius ≤ 2 ^ 38 }
        ensures { result ≡ looks_larger size place radius self.now self.now.tol }
    {
        self.looks_larger_than(self.tol, place, size, radius)
    }

    // Whether the size of a node looks larger than the tolerance for outlines.
    pub(crate) fn outline_looks_large(&self, place: Point, size: u64, radius: u64) -> bool
        requires size_small { size ≤ 2 ^ 38 }
        requires radius_small { radius ≤ 2 ^ 38 }
        ensures { result ≡ looks_larger size place radius self.now self.now.sil }
    {
        self.looks_larger_than(self.sil, place, size, radius)
    }

    /// By which number of a node the view judges it.
    pub fn measure(&self) -> Measure
        ensures { result ≡ self.now.measure }
    {
        self.measure
    }

    /// The same view, which judges nodes by their deviations.
    pub fn by_deviation(self) -> View
        ensures { result ≡ by_deviation self }
    {
        View {
            measure: Measure::Deviation,
            eye: self.eye,
            focal: self.focal,
            tol: self.tol,
            sil: self.sil,
            planes: self.planes,
        }
    }
}

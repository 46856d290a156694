//! Points come to stand on the grid.
ghost use Rattle.std.specs.Prelude.{◌≡◌, [], length, IfOk, MatchOption};
ghost use Rattle.std.specs.List.{All, list_all};
ghost use Rattle.obj_prepare.specs.Boxes.{box_of_points};
ghost use Rattle.obj_prepare.specs.Exact.{lower, upper};
ghost use Rattle.obj_prepare.specs.Named.{IsWithinMesh, chosen};
ghost use Rattle.obj_prepare.specs.Placing.{IsSize, IsSized, Suits, frame_of, fit_for, fit_of};
ghost use Rattle.obj_prepare.specs.Placing.{placed, places_by, prepared_places_of};
ghost use Rattle.obj_prepare.specs.Whole.{stands_on_grid};

use crate::extents::{PointBox, point, scaled};
use crate::named::named;
use crate::standing::{stands, whole};
use crate::{ExactPoint, OutOfMemory};
use pm_base::{Corners, GREATEST_COORDINATE, Point};
use std::alloc::Global;

/// How points are brought onto the grid.
#[derive(Clone, Copy, Debug, PartialEq, Eq)]
pub enum Fit {
    /// All are whole numbers in range, and stand as they are.
    Standing,
    /// The longest axis of their box goes from -size to size.
    Scaled(u32, PointBox),
}

/// Points on the grid, and how they came there.
#[derive(Drop)]
pub struct Placing {
    pub fit: Fit,
    pub places: Vec<Point>,
}

/// The places of the points that triangles name. Where no size is given and all of them are whole
/// and at most 32,767 in absolute value, they stand as they are; else the longest axis of their box
/// goes from -size to size, which is 32,767 where none is given. Points that no triangle names
/// stand at 0. O(V + F) for V points and F triangles.
pub fn place_points(
    alloc: Global,
    size: Option<u32>,
    points: &[ExactPoint],
    faces: &[Corners],
) -> Result<Placing, OutOfMemory>
    requires size { IsSize size }
    requires within { IsWithinMesh (length points.now) faces.now }
    ensures fit { IfOk result (λ p. p.fit ≡ fit_of size points.now faces.now) }
    ensures places { IfOk result
        (λ p. p.places.items ≡ prepared_places_of size points.now faces.now) }
    ensures sized { IfOk result (λ p. IsSized p.fit) }
{
    let named = named(alloc, points.len(), faces)?;
    let fit = fit_for(size, &named, points);
    let places = places_by(alloc, &fit, &named, points)?;
    Ok(Placing { fit, places })
}

// How the points whose flag is set are brought onto the grid.
fn fit_for(size: Option<u32>, named: &[bool], points: &[ExactPoint]) -> Fit
    requires flags { length named.now ≡ length points.now }
    requires size { IsSize size }
    ensures value { result ≡ fit_for size (chosen named.now points.now) }
    ensures sized { IsSized result }
{
    let Some(frame) = frame_of(named, points) else {
        return Fit::Standing;
    };
    match size {
        Some(size) => Fit::Scaled(size, frame),
        None => {
            if all_stand(named, points) {
                Fit::Standing
            } else {
                Fit::Scaled(GREATEST_COORDINATE, frame)
            }
        }
    }
}

// The box of the points whose flag is set, if there are any.
#[tactic(auto, using(crate::proofs::PlacingLaws::frame_on, crate::proofs::PlacingLaws::frame_past, crate::proofs::PlacingLaws::frame_done))]
fn frame_of(named: &[bool], points: &[ExactPoint]) -> Option<PointBox>
    requires { length named.now ≡ length points.now }
    ensures { result ≡ frame_of (chosen named.now points.now) }
{
    let mut frame = None;
    for at in 0..points.len() {
        if named[at] {
            frame = Some(grown(frame, &points[at]));
        }
    }
    frame
}

// A box with one point more, or the box of that point alone.
fn grown(frame: Option<PointBox>, p: &ExactPoint) -> PointBox
    ensures { MatchOption frame (result ≡ box_of_points p.now [])
        (λ b. result ≡ record { low = lower b.low p.now; high = upper b.high p.now }) }
{
    match frame {
        None => PointBox { low: *p, high: *p },
        Some(b) => PointBox {
            low: b.low.lower(p),
            high: b.high.upper(p),
        },
    }
}

// Whether all points whose flag is set stand on the grid.
#[tactic(auto, using(crate::proofs::PlacingLaws::stand_on, crate::proofs::PlacingLaws::stand_past, crate::proofs::PlacingLaws::stand_fails, crate::proofs::PlacingLaws::stand_done))]
fn all_stand(named: &[bool], points: &[ExactPoint]) -> bool
    requires { length named.now ≡ length points.now }
    ensures { result ≡ list_all stands_on_grid (chosen named.now points.now) }
{
    for at in 0..points.len() {
        if named[at] && !stands(&points[at]) {
            return false;
        }
    }
    true
}

// The place of each point whose flag is set, and 0 for the others.
#[tactic(auto, using(crate::proofs::PlacingLaws::chosen_has, crate::proofs::PlacingLaws::place_on, crate::proofs::PlacingLaws::place_past, crate::proofs::PlacingLaws::place_done))]
fn places_by(
    alloc: Global,
    fit: &Fit,
    named: &[bool],
    points: &[ExactPoint],
) -> Result<Vec<Point>, OutOfMemory>
    requires flags { length named.now ≡ length points.now }
    requires suits { All (Suits fit.now) (chosen named.now points.now) }
    ensures { IfOk result (λ places. places.items ≡ places_by fit.now named.now points.now) }
{
    let mut places = Vec::new(alloc);
    for at in 0..points.len() {
        if named[at] {
            places.push(placed(fit, &points[at]))?;
        } else {
            places.push(point(0, 0, 0))?;
        }
    }
    Ok(places)
}

fn placed(fit: &Fit, p: &ExactPoint) -> Point
    requires { Suits fit.now p.now }
    ensures { result ≡ placed fit.now p.now }
{
    match fit {
        Fit::Standing => point(whole(p.x()), whole(p.y()), whole(p.z())),
        Fit::Scaled(size, frame) => scaled(*size, frame, p),
    }
}

//! Different points, and different places.
ghost use Rattle.std.specs.Prelude.{◌≡◌, ◌≤◌, ◌+◌, ◌∷◌, List, length, IfOk};
ghost use Rattle.pm_base.specs.declared.limits.TheConstants.{MOST_VERTICES};
ghost use Rattle.pm_base.specs.Place.{Place};
ghost use Rattle.obj_prepare.specs.Named.{IsWithinMesh, chosen};
ghost use Rattle.obj_prepare.specs.Different.{key_of, different, rounded_count as rounded_count_of};
ghost use Rattle.obj_prepare.specs.Different.{IsCounted};

use crate::OutOfMemory;
use crate::exact::ExactPoint;
use crate::named::named;
use pm_base::{Corners, Point};
use std::alloc::Global;
use std::collections::BTreeSet;

// A point as a key.
type PointKey = ((i128, i128), i128);

fn key(p: &ExactPoint) -> PointKey
    ensures { result ≡ key_of p.now }
{
    ((p.x(), p.y()), p.z())
}

fn place_key(p: &Point) -> PointKey
    ensures { result ≡ key_of p.now }
{
    ((i128::from(p.x()), i128::from(p.y())), i128::from(p.z()))
}

// Notes a point, and counts it where it is new.
#[tactic(auto, using(crate::proofs::DifferentLaws::new_counted, crate::proofs::DifferentLaws::old_counted))]
fn counted(seen: &mut BTreeSet<PointKey>, n: u32, key: PointKey) -> Result<u32, OutOfMemory>
    requires few { n ≤ MOST_VERTICES }
    ensures counted { (p : Place) (whole left : List Place) → key ≡ key_of p
        → IsCounted whole (p ∷ left) seen.old n
        → IfOk result (λ m. IsCounted whole left seen.new m) }
    ensures few { IfOk result (λ m. m ≤ n + 1) }
{
    if seen.insert(key)? { Ok(n + 1) } else { Ok(n) }
}

// How many different points those have whose flag is set.
#[tactic(auto, using(crate::proofs::DifferentLaws::none_counted, crate::proofs::DifferentLaws::flag_on, crate::proofs::DifferentLaws::flag_past, crate::proofs::DifferentLaws::all_counted))]
fn different_points(
    alloc: Global,
    named: &[bool],
    points: &[ExactPoint],
) -> Result<u32, OutOfMemory>
    requires flags { length named.now ≡ length points.now }
    requires few { length points.now ≤ MOST_VERTICES }
    ensures { IfOk result (λ n. n ≡ different (chosen named.now points.now)) }
{
    let mut seen = BTreeSet::new(alloc);
    let mut n = 0;
    for at in 0..points.len() {
        if named[at] {
            n = counted(&mut seen, n, key(&points[at]))?;
        }
    }
    Ok(n)
}

// How many different places those have whose flag is set.
#[tactic(auto, using(crate::proofs::DifferentLaws::none_counted, crate::proofs::DifferentLaws::flag_on, crate::proofs::DifferentLaws::flag_past, crate::proofs::DifferentLaws::all_counted))]
fn different_places(alloc: Global, named: &[bool], places: &[Point]) -> Result<u32, OutOfMemory>
    requires flags { length named.now ≡ length places.now }
    requires few { length places.now ≤ MOST_VERTICES }
    ensures { IfOk result (λ n. n ≡ different (chosen named.now places.now)) }
{
    let mut seen = BTreeSet::new(alloc);
    let mut n = 0;
    for at in 0..places.len() {
        if named[at] {
            n = counted(&mut seen, n, place_key(&places[at]))?;
        }
    }
    Ok(n)
}

/// How many vertices that faces name were joined by rounding: how many different points they have,
/// less how many different places. Each point has its place. O(F + V log V) for F faces and V
/// points.
#[tactic(auto, unfolding(crate::specs::Different::rounded_count))]
pub fn rounded_count(
    alloc: Global,
    points: &[ExactPoint],
    places: &[Point],
    faces: &[Corners],
) -> Result<u32, OutOfMemory>
    requires within { IsWithinMesh (length points.now) faces.now }
    requires placed { length places.now ≡ length points.now }
    ensures { IfOk result (λ n. n ≡ rounded_count_of points.now places.now faces.now) }
{
    let named = named(alloc, points.len(), faces)?;
    let points = different_points(alloc, &named, points)?;
    let places = different_places(alloc, &named, places)?;
    Ok(points.saturating_sub(places))
}

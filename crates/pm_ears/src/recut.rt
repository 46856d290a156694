//! Polygons among the triangles of a mesh, cut anew once their corners stand somewhere.
ghost use Rattle.std.specs.Prelude.{◌≡◌, ◌<◌, ◌≤◌, ◌+◌, length, map, IfOk};
ghost use Rattle.std.specs.List.{All};
ghost use Rattle.pm_base.specs.declared.limits.TheConstants.{MOST_FACES};
ghost use Rattle.pm_ears.specs.Recutting.{AreBelow, IsPolygonWithin, IsFateOf, IsRecutOf};
ghost use Rattle.pm_ears.specs.Recutting.{by_corners, corners_of as corners_of_fan};
ghost use Rattle.pm_ears.specs.Recutting.{fan_at as fan_at_of, first_two as first_two_of};
ghost use Rattle.pm_ears.specs.Recutting.{names_three as names_three_in};
ghost use Rattle.pm_ears.specs.Recutting.{places_of as places_of_corners, put_at};

use crate::OutOfMemory;
use crate::cut::{CutKind, cut_polygon};
use pm_base::{Corners, Point};
use pm_fans::is_flat;
use std::alloc::Global;

/// A polygon among triangles, which was cut into the fan from its first corner: where its triangles
/// begin, and how many they are.
#[derive(Clone, Copy, Debug, PartialEq, Eq)]
pub struct Polygon {
    pub first: u32,
    pub triangles: u32,
}

/// Triangles of which polygons were cut anew, and how many polygons kept a fan that overlaps.
#[derive(Drop)]
pub struct Recut {
    pub faces: Vec<Corners>,
    pub overlapping: u32,
}

// What becomes of a polygon's fan.
#[derive(Drop)]
pub(crate) enum Fate {
    // None of its triangles is turned over.
    Fan,
    // One is, and these triangles stand in their place.
    Ears(Vec<Corners>),
    // One is, and they stay.
    OverlappingFan,
}

// The first two corners of the polygon that was cut into this fan.
fn first_two(alloc: Global, fan: &[Corners]) -> Result<Vec<u32>, OutOfMemory>
    ensures { IfOk result (λ corners. corners.items ≡ first_two_of fan.now) }
{
    let mut corners = Vec::new(alloc);
    if let [first, ..] = fan {
        corners.push(first.a)?;
        corners.push(first.b)?;
    }
    Ok(corners)
}

// Its corners.
fn corners_of(alloc: Global, fan: &[Corners]) -> Result<Vec<u32>, OutOfMemory>
    ensures { IfOk result (λ corners. corners.items ≡ corners_of_fan fan.now) }
{
    let mut corners = first_two(alloc, fan)?;
    for face in fan {
        corners.push(face.c)?;
    }
    Ok(corners)
}

// Where they stand.
fn places_of(alloc: Global, places: &[Point], corners: &[u32]) -> Result<Vec<Point>, OutOfMemory>
    requires { All (λ v. v < length places.now) corners.now }
    ensures { IfOk result (λ at. at.items ≡ places_of_corners places.now corners.now) }
{
    let mut at = Vec::new(alloc);
    for v in corners {
        at.push(places[*v as usize])?;
    }
    Ok(at)
}

// Whether each triangle names three different vertices.
fn names_three(fan: &[Corners]) -> bool
    ensures { result ≡ names_three_in fan.now }
{
    for face in fan {
        if is_flat(*face) {
            return false;
        }
    }
    true
}

// The triangles of these corners.
fn by_corners(
    alloc: Global,
    corners: &[u32],
    triangles: &[Corners],
) -> Result<Vec<Corners>, OutOfMemory>
    requires { All (AreBelow (length corners.now)) triangles.now }
    ensures { IfOk result (λ faces. faces.items ≡ map (by_corners corners.now) triangles.now) }
{
    let mut faces = Vec::new(alloc);
    for t in triangles {
        faces.push(Corners {
            a: corners[t.a as usize],
            b: corners[t.b as usize],
            c: corners[t.c as usize],
        })?;
    }
    Ok(faces)
}

// What becomes of a fan over placed vertices.
#[tactic(auto, unfolding(crate::specs::Recutting::gives_way, crate::specs::Recutting::stays_overlapping))]
fn judge(alloc: Global, places: &[Point], fan: &[Corners]) -> Result<Fate, OutOfMemory>
    requires below { All (AreBelow (length places.now)) fan.now }
    requires few { length fan.now ≤ MOST_FACES }
    ensures { IfOk result (IsFateOf places.now fan.now) }
{
    let corners = corners_of(alloc, fan)?;
    let at = places_of(alloc, places, &corners)?;
    let cut = cut_polygon(alloc, &at)?;
    match cut.kind {
        CutKind::Fan => Ok(Fate::Fan),
        CutKind::Ears if names_three(fan) => {
            let faces = by_corners(alloc, &corners, cut.triangles.as_slice())?;
            Ok(Fate::Ears(faces))
        }
        CutKind::Ears | CutKind::OverlappingFan => Ok(Fate::OverlappingFan),
    }
}

// The triangles of a polygon.
fn fan_at(faces: &[Corners], p: Polygon) -> &[Corners]
    requires { IsPolygonWithin (length faces.now) p }
    ensures { result.now ≡ fan_at_of faces.now p }
{
    let first = p.first as usize;
    &faces[first..first + p.triangles as usize]
}

// Puts triangles in place of as many from a number on.
#[tactic(auto, using(crate::proofs::Putting::put_none))]
fn put(faces: &mut Vec<Corners>, first: usize, triangles: &[Corners])
    requires { first + length triangles.now ≤ length faces.old.items }
    ensures { faces.new.items ≡ put_at first triangles.now faces.old.items }
{
    for i in 0..triangles.len() {
        faces[first + i] = triangles[i];
    }
}

/// Cuts anew the polygons among triangles over placed vertices, each of which stands there as the
/// fan from its first corner. A fan of which a triangle is turned over gives way to as many ears,
/// as `cut_polygon` tells; but it stays where there are none, and where one of its triangles names
/// a vertex twice.
///
/// O(F) for F triangles, and what `cut_polygon` costs for each polygon.
pub fn recut_polygons(
    alloc: Global,
    places: &[Point],
    polygons: &[Polygon],
    faces: &[Corners],
) -> Result<Recut, OutOfMemory>
    requires below { All (AreBelow (length places.now)) faces.now }
    requires few { length faces.now ≤ MOST_FACES }
    requires within { All (IsPolygonWithin (length faces.now)) polygons.now }
    requires polygons_few { length polygons.now ≤ MOST_FACES }
    ensures { IfOk result (IsRecutOf places.now polygons.now faces.now) }
{
    let mut cut = Vec::with_capacity(alloc, faces.len())?;
    cut.extend_from_slice(faces)?;
    let mut overlapping = 0;
    for p in polygons {
        match judge(alloc, places, fan_at(faces, *p))? {
            Fate::Fan => {}
            Fate::Ears(triangles) => put(&mut cut, p.first as usize, &triangles),
            Fate::OverlappingFan => overlapping += 1,
        }
    }
    Ok(Recut {
        faces: cut,
        overlapping,
    })
}

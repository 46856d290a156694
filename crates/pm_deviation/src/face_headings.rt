//! The headings of all faces: their normals.
ghost use Rattle.std.specs.Prelude.{◌≡◌, ◌<◌, IfOk, IfSome};
ghost use Rattle.pm_forest.specs.Forest.{leaf_count};
ghost use Rattle.pm_forest.specs.Faces.{face_count, corners_of};
ghost use Rattle.pm_bounds.specs.Bounds.{normal_of};
ghost use Rattle.pm_deviation.specs.Normals.{unit_box, spread_of};
ghost use Rattle.pm_deviation.specs.Tables.{IsUnitBox, IsHeading, AreHeadings, HaveSpreads};
ghost use Rattle.pm_deviation.specs.Tables.{AreOfFaces};

use crate::OutOfMemory;
use crate::heading::Heading;
use crate::leaves::{face_leaves, leaf_point};
use crate::parts::unit_box;
use crate::unit_box::UnitBox;
use pm_base::{FaceId, cross};
use pm_forest::{Face, Hierarchy};
use std::alloc::Global;

// The normal of a face in parts of its own length.
fn face_box(h: &Hierarchy, face: Face) -> Option<UnitBox>
    requires a { face.a < leaf_count h.now }
    requires b { face.b < leaf_count h.now }
    requires c { face.c < leaf_count h.now }
    ensures value { result ≡ unit_box (normal_of h.now face) }
    ensures small { IfSome result IsUnitBox }
{
    let normal = cross(
        leaf_point(h, face.a),
        leaf_point(h, face.b),
        leaf_point(h, face.c),
    );
    unit_box(normal.x, normal.y, normal.z)
}

// The heading of a face.
fn face_heading(h: &Hierarchy, f: FaceId) -> Heading
    requires { f.0 < face_count h.now }
    ensures is { IsHeading h.now result }
    ensures a { result.a ≡ (corners_of h.now f.0).a }
    ensures b { result.b ≡ (corners_of h.now f.0).b }
    ensures c { result.c ≡ (corners_of h.now f.0).c }
    ensures parts { result.parts ≡ unit_box (normal_of h.now (corners_of h.now f.0)) }
{
    let face = face_leaves(h, f);
    Heading {
        a: face.a,
        b: face.b,
        c: face.c,
        parts: face_box(h, face),
    }
}

/// The heading of each face: its normal.
pub(crate) fn face_headings(alloc: Global, h: &Hierarchy) -> Result<Vec<Heading>, OutOfMemory>
    ensures are { IfOk result (λ headings. AreHeadings h.now headings.items) }
    ensures spreads { IfOk result (λ headings.
        HaveSpreads h.now (spread_of h.now) headings.items) }
    ensures faces { IfOk result (λ headings.
        AreOfFaces h.now (face_count h.now) headings.items) }
{
    let mut headings = Vec::with_capacity(alloc, h.faces() as usize)?;
    for f in 0..h.faces() {
        headings.push(face_heading(h, FaceId(f)))?;
    }
    Ok(headings)
}

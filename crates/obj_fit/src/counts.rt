//! How much a text had, and how much came out.
ghost use Rattle.std.specs.Prelude.{◌≡◌, ◌≤◌, length};
ghost use Rattle.pm_base.specs.declared.limits.TheConstants.{MOST_FACES};
ghost use Rattle.pm_base.specs.Meshes.{IsWellFormed, mesh_of};
ghost use Rattle.obj_prepare.specs.Named.{of_three};
ghost use Rattle.obj_scan.specs.Fails.{scanned_of};
ghost use Rattle.obj_scan.specs.Meaning.{IsWithinLimits};
ghost use Rattle.obj_fit.specs.Outcome.{counts_of};

use crate::rounded::RoundedFaces;
use crate::thin::count_thin;
use obj_scan::{PassedOver, Scan};
use pm_base::{Corners, Mesh};
use pm_ears::Recut;

/// How many vertices and triangles a text had, and how many came out of it.
#[derive(Clone, Copy, Debug, PartialEq, Eq)]
pub struct Counts {
    pub vertices_in: u32,
    pub vertices_out: u32,
    pub triangles_in: u32,
    pub triangles_out: u32,
    /// Faces of more than three corners.
    pub polygons: u32,
    /// Polygons that keep a fan of which a triangle is turned over.
    pub overlapping: u32,
    /// Vertices of which a coordinate was rounded as it was read.
    pub inexact: u32,
    /// What rounding to the grid did to triangles.
    pub rounded: RoundedFaces,
    pub passed: PassedOver,
    /// Triangles that name a vertex twice.
    pub twice: u32,
    /// Faces that came out without area.
    pub thin: u32,
}

/// The counts of a text, of whose triangles, once polygons were cut anew, these name three
/// vertices and rounding did this to them, and of the mesh that came out.
#[tactic(auto, using(obj_prepare::proofs::ThreeLaws::three_few))]
pub fn counts_of(
    scan: &Scan,
    cut: &Recut,
    three: &[Corners],
    rounded: RoundedFaces,
    mesh: &Mesh,
) -> Counts
    requires within { IsWithinLimits (scanned_of scan.now) }
    requires cut { length cut.now.faces.items ≤ MOST_FACES }
    requires three { three.now ≡ of_three cut.now.faces.items }
    requires few { length three.now ≤ MOST_FACES }
    requires formed { IsWellFormed (mesh_of mesh.now) }
    ensures { result ≡ counts_of (scanned_of scan.now) cut.now.faces.items cut.now.overlapping
        rounded (mesh_of mesh.now) }
{
    Counts {
        vertices_in: scan.points.len() as u32,
        vertices_out: mesh.points.len() as u32,
        triangles_in: scan.faces.len() as u32,
        triangles_out: mesh.faces.len() as u32,
        polygons: scan.polygons.len() as u32,
        overlapping: cut.overlapping,
        inexact: scan.inexact,
        rounded,
        passed: scan.passed,
        twice: cut.faces.len() as u32 - three.len() as u32,
        thin: count_thin(mesh.points.as_slice(), mesh.faces.as_slice()),
    }
}

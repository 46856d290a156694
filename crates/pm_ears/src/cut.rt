//! A polygon cut into triangles.
ghost use Rattle.std.specs.Prelude.{◌≡◌, ◌≤◌, ◌+◌, length, map, IfOk};
ghost use Rattle.pm_base.specs.declared.limits.TheConstants.{MOST_FACES};
ghost use Rattle.pm_ears.specs.Cutting.{IsCutOf, named, pieces_of};

use crate::OutOfMemory;
use crate::ears::few_ears;
use crate::fan::{fan, overlaps};
use crate::plane::{cutting_plane, spots};
use crate::spots::Spot;
use pm_base::{Point, Triples};
use std::alloc::Global;

/// The most corners of a polygon in which ears are looked for: their cost grows with the square.
pub const MOST_EAR_CORNERS: usize = 1024;

const _: () = prove!(MOST_EAR_CORNERS == 1024);

/// How a polygon is cut.
#[derive(Clone, Copy, Debug, PartialEq, Eq)]
pub enum CutKind {
    /// A fan from the first corner, of which no triangle is turned over.
    Fan,
    /// Ears, taken off one after the other; no triangle is turned over.
    Ears,
    /// A fan of which a triangle is turned over: corners without an ear are left, or there are too
    /// many corners.
    OverlappingFan,
}

/// A polygon's triangles, as positions of its corners from 0.
#[derive(Drop)]
pub struct Cut {
    pub kind: CutKind,
    pub triangles: Triples,
}

// Cuts a polygon whose corners stand on a plane.
fn cut_spots(alloc: Global, spots: &[Spot]) -> Result<Cut, OutOfMemory>
    ensures kind { IfOk result (λ cut. cut.kind ≡ (pieces_of spots.now).kind) }
    ensures triangles { IfOk result
        (λ cut. cut.triangles.items ≡ map named (pieces_of spots.now).triangles) }
{
    if !overlaps(spots) {
        let triangles = fan(alloc, spots)?;
        return Ok(Cut {
            kind: CutKind::Fan,
            triangles,
        });
    }
    match few_ears(alloc, spots)? {
        Some(triangles) => Ok(Cut {
            kind: CutKind::Ears,
            triangles,
        }),
        None => {
            let triangles = fan(alloc, spots)?;
            Ok(Cut {
                kind: CutKind::OverlappingFan,
                triangles,
            })
        }
    }
}

/// Cuts a polygon with corners at these places into triangles, two fewer than corners, each of
/// which keeps the polygon's order. The polygon is looked at along the axis on which its area is
/// greatest, the first of equal ones, and from the side on which the area isn't below 0. Where it
/// has no area along any axis, it is looked at along the first on which a triangle of its fan has
/// one.
///
/// Where no triangle of the fan from the first corner is turned over, the fan stays. Else triangles
/// of three corners in a row come off: each time the first that has an area above 0 and in which no
/// other corner lies, or else the first without an area. A corner on a triangle's border lies in
/// it, but not one at one of its three places. Where neither is left, or there are more than 1,024
/// corners, the fan stays.
///
/// O(n) for n corners where ears aren't looked for, else O(n^2).
pub fn cut_polygon(alloc: Global, places: &[Point]) -> Result<Cut, OutOfMemory>
    requires few { length places.now ≤ MOST_FACES + 2 }
    ensures { IfOk result (IsCutOf places.now) }
{
    let spots = spots(alloc, cutting_plane(places), places)?;
    cut_spots(alloc, &spots)
}

//! The sides of a mesh in lists: for each vertex those that leave it, from the last to the first.
//! They are linked through the table that is to hold the twins, so that they take no memory but
//! four bytes a vertex.
ghost use Rattle.std.specs.Prelude.{◌≡◌, ◌*◌, ◌<◌, Some, None, length, replicate, slice_set};
ghost use Rattle.std.specs.Prelude.{slice_index_or, IfOk, IfSome};
ghost use Rattle.pm_base.specs.Sides.{net_of, side_count};
ghost use Rattle.pm_base.specs.declared.limits.TheConstants.{MOST_SIDES};
ghost use Rattle.pm_twins.specs.Whole.{IsWhole};
ghost use Rattle.pm_twins.specs.SideLists.{AreListed};

use crate::OutOfMemory;
use pm_base::{Corners, OptionalSide, Side, SideMap};
use std::alloc::Global;

/// The last side that leaves each vertex, and for each side the one before it that leaves the same
/// vertex.
#[derive(Drop)]
pub(crate) struct SideLists {
    pub(crate) lasts: Vec<OptionalSide>,
    pub(crate) links: SideMap,
}

/// All sides, in the lists of their vertices. O(F + V) for F faces and V vertices.
pub(crate) fn list_sides(
    alloc: Global,
    faces: &[Corners],
    vertices: usize,
) -> Result<SideLists, OutOfMemory>
    requires { IsWhole (net_of faces.now) vertices }
    ensures { IfOk result (λ lists. AreListed (net_of faces.now) vertices
        (side_count (net_of faces.now)) lists.lasts.items lists.links) }
{
    let mut lasts = no_sides(alloc, vertices)?;
    let mut links = SideMap::new(alloc, 3 * faces.len() as u32)?;
    for f in 0..faces.len() {
        let face = faces[f];
        let side = 3 * f as u32;
        put(&mut lasts, &mut links, face.a, Side(side));
        put(&mut lasts, &mut links, face.b, Side(side + 1));
        put(&mut lasts, &mut links, face.c, Side(side + 2));
    }
    Ok(SideLists { lasts, links })
}

// No side for each of so many vertices. The number is a parameter, so that no proof unfolds the
// list.
fn no_sides(alloc: Global, vertices: usize) -> Result<Vec<OptionalSide>, OutOfMemory>
    ensures { IfOk result (λ sides. sides.items ≡ replicate vertices None) }
{
    vec![in alloc; OptionalSide::of(None); vertices]
}

// Puts a side into the list of vertex `v`, before those that are there.
fn put(lasts: &mut Vec<OptionalSide>, links: &mut SideMap, v: u32, side: Side)
    requires vertex { v < length lasts.old.items }
    requires side { side.0 < length links.old }
    requires small { IfSome (slice_index_or lasts.old.items v None) (λ last. last < MOST_SIDES) }
    requires few { side.0 < MOST_SIDES }
    ensures links { links.new
        ≡ slice_set links.old side.0 (slice_index_or lasts.old.items v None) }
    ensures lasts { lasts.new.items ≡ slice_set lasts.old.items v (Some side.0) }
{
    links.set(side, lasts[v as usize].side());
    lasts[v as usize] = OptionalSide::of(Some(side));
}

//! Closed patches inside out, counted where no face is to be turned.
ghost use Rattle.std.specs.Prelude.{◌≤◌, length, IfOk};
ghost use Rattle.pm_base.specs.declared.limits.TheConstants.{MOST_FACES};
ghost use Rattle.pm_base.specs.Sides.{net_of};
ghost use Rattle.pm_turn.specs.Unions.{AreMated};
ghost use Rattle.pm_turn.specs.Choice.{ArePlaced};
ghost use Rattle.pm_turn.specs.Told.{AreInsideOut};

use crate::OutOfMemory;
use crate::choice::{all_roots, patch_sums};
use crate::counts::inside_out;
use crate::patches::join_all;
use crate::turning::own_patches;
use pm_base::{Corners, Point, SideMap};
use std::alloc::Global;

/// How many closed patches agree as they are and are inside out, by the mates of all sides: what
/// `chosen_turns` tells beside its flags. Twice as fast or more, since no map is made. O(F log F)
/// for F faces.
pub fn inside_out_by(
    alloc: Global,
    faces: &[Corners],
    places: &[Point],
    mates: &SideMap,
) -> Result<u32, OutOfMemory>
    requires short { length faces.now ≤ MOST_FACES }
    requires placed { ArePlaced (net_of faces.now) places.now }
    requires mated { AreMated (net_of faces.now) mates.now }
    ensures { IfOk result (AreInsideOut (net_of faces.now) places.now) }
{
    let mut patches = own_patches(alloc, faces.len() as u32)?;
    join_all(&mut patches, faces, mates);
    let roots = all_roots(alloc, &mut patches, faces)?;
    let sums = patch_sums(alloc, faces, places, mates, &roots)?;
    Ok(inside_out(faces, places, mates, &patches.odd, &roots, &sums))
}

//! The sides along which the surface is cut open, counted.
ghost use Rattle.std.specs.Prelude.{◌≡◌, ◌*◌, ◌<◌, nat_lt, length, IfOk};
ghost use Rattle.pm_base.specs.Counts.{count};
ghost use Rattle.pm_base.specs.Sides.{Net, net_of, side_count};
ghost use Rattle.pm_fans.specs.Splits.{IsCuttable};
ghost use Rattle.pm_fans.specs.Ends.{AreNoted};
ghost use Rattle.pm_fans.specs.Cuts.{side_runs, is_cut as is_cut_of, cut_count};

use crate::OutOfMemory;
use crate::glue::{SEVERAL, ends, note_sides};
use crate::sides::{from, to};
use pm_base::{Corners, Side};
use std::alloc::Global;
use std::collections::BTreeMap;

/// How many sides are cut open: those along or back along which several sides run. A side without a
/// twin isn't counted, as it is open already. O(F log F) for F faces.
#[tactic(auto, unfolding(crate::specs::Cuts::cut_count))]
pub fn cut_sides(alloc: Global, faces: &[Corners]) -> Result<u32, OutOfMemory>
    requires { IsCuttable (net_of faces.now) }
    ensures { IfOk result (λ n. n ≡ cut_count (net_of faces.now)) }
{
    let sides = note_sides(alloc, faces)?;
    let mut cut = 0;
    for number in 0..3 * faces.len() as u32 {
        cut += u32::from(is_cut(faces, &sides, Side(number)));
    }
    Ok(cut)
}

// Whether several sides run along this one or back along it.
#[tactic(auto, unfolding(crate::specs::Cuts::is_cut))]
fn is_cut(faces: &[Corners], sides: &BTreeMap<u64, u32>, side: Side) -> bool
    requires cuttable { IsCuttable (net_of faces.now) }
    requires in_range { side.0 < 3 * length faces.now }
    requires noted { AreNoted (net_of faces.now) (3 * length faces.now) sides.now }
    ensures { result ≡ is_cut_of (net_of faces.now) side.0 }
{
    let p = from(faces, side);
    let q = to(faces, side);
    are_several(sides, p, q) || are_several(sides, q, p)
}

// Whether several sides run from p to q.
fn are_several(sides: &BTreeMap<u64, u32>, p: u32, q: u32) -> bool
    ensures { (m : Net) → IsCuttable m → AreNoted m (side_count m) sides.now
        → result ≡ nat_lt 1 (count (side_runs m p q) (side_count m)) }
{
    match sides.get(&ends(p, q)) {
        Some(&side) => side == SEVERAL,
        None => false,
    }
}

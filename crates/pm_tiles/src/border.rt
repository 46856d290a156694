//! The vertices on the border of a surface, as flags that tell a run what to keep.
ghost use Rattle.std.specs.Prelude.{length, IfOk};
ghost use Rattle.pm_base.specs.Sides.{net_of};
ghost use Rattle.pm_twins.specs.Table.{IsBorderOf};
ghost use Rattle.pm_keeping.specs.Keeping.{kept_in};
ghost use Rattle.pm_tiles.specs.Borders.{KeepsBorder};

use crate::OutOfMemory;
use pm_twins::Surface;
use std::alloc::Global;

/// A flag for each vertex of a surface, set exactly where the vertex is on the border. Where a run
/// keeps the vertices of these flags, every closed front of its hierarchy shows the border as it
/// is. O(V) for V vertices.
pub fn border_flags(alloc: Global, surface: &Surface) -> Result<Vec<bool>, OutOfMemory>
    ensures border { IfOk result (λ flags.
        IsBorderOf (net_of surface.now.faces) (length surface.now.points) flags.items) }
    ensures keeps { IfOk result (λ flags. KeepsBorder (kept_in flags.items) surface.now) }
{
    surface.invariant();
    let twins = surface.twins();
    let vertices = surface.mesh().points.len();
    let mut flags = vec![in alloc; false; vertices]?;
    for vertex in 0..vertices {
        flags[vertex] = twins.is_border(vertex as u32);
    }
    Ok(flags)
}

//! Points on the grid, and polygons cut anew over them.
ghost use Rattle.std.specs.Prelude.{IfOk};
ghost use Rattle.obj_prepare.specs.Placing.{IsSize};
ghost use Rattle.obj_scan.specs.Fails.{scanned_of};
ghost use Rattle.obj_scan.specs.Meaning.{IsWithinLimits};
ghost use Rattle.obj_fit.specs.Making.{IsLaid};

use obj_prepare::{Placing, of_three, place_points};
use obj_scan::Scan;
use pm_base::Corners;
use pm_ears::{Recut, recut_polygons};
use std::alloc::{AllocError, Global};

/// The triangles of a text that name three vertices, by which its points were placed; all of them
/// once polygons were cut anew over these places, and those of these that name three vertices.
#[derive(Drop)]
pub struct Laid {
    pub fans: Vec<Corners>,
    pub placing: Placing,
    pub cut: Recut,
    pub three: Vec<Corners>,
}

/// Brings the points of a text onto the grid, and cuts polygons anew whose fans overlap there.
pub fn lay_out(alloc: Global, size: Option<u32>, scan: &Scan) -> Result<Laid, AllocError>
    requires size { IsSize size }
    requires within { IsWithinLimits (scanned_of scan.now) }
    ensures { IfOk result (IsLaid size (scanned_of scan.now)) }
{
    let fans = of_three(alloc, &scan.faces)?;
    let placing = place_points(alloc, size, &scan.points, &fans)?;
    let cut = recut_polygons(alloc, &placing.places, &scan.polygons, &scan.faces)?;
    let three = of_three(alloc, &cut.faces)?;
    Ok(Laid {
        fans,
        placing,
        cut,
        three,
    })
}

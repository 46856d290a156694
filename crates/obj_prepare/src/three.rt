//! Faces that name three vertices.
ghost use Rattle.std.specs.Prelude.{◌≡◌, IfOk};
ghost use Rattle.obj_prepare.specs.Named.{of_three as of_three_in};

use crate::OutOfMemory;
use pm_base::Corners;
use pm_fans::is_flat;
use std::alloc::Global;

/// The faces that name three different vertices, in order. O(F) for F faces.
pub fn of_three(alloc: Global, faces: &[Corners]) -> Result<Vec<Corners>, OutOfMemory>
    ensures { IfOk result (λ three. three.items ≡ of_three_in faces.now) }
{
    let mut three = Vec::new(alloc);
    for face in faces {
        if !is_flat(*face) {
            three.push(*face)?;
        }
    }
    Ok(three)
}

//! The vertices that a face names.
ghost use Rattle.std.specs.Prelude.{◌≡◌, ℕ, List, [], ◌∷◌, ◌++◌, length, IfOk};
ghost use Rattle.pm_base.specs.declared.mesh.Corners.{Corners as FaceCorners};
ghost use Rattle.obj_prepare.specs.Named.{AreVerticesBelow, IsWithinMesh, named_in};

use crate::OutOfMemory;
use pm_base::Corners;
use std::alloc::Global;

/// Of each vertex, whether a face names it. O(V + F) for V vertices and F faces.
pub(crate) fn named(
    alloc: Global,
    vertices: usize,
    faces: &[Corners],
) -> Result<Vec<bool>, OutOfMemory>
    requires { IsWithinMesh vertices faces.now }
    ensures { IfOk result (λ flags. flags.items ≡ named_in faces.now vertices) }
{
    let mut flags = unnamed(alloc, vertices)?;
    for at in 0..faces.len() {
        name_corners(&mut flags, faces[at]);
    }
    Ok(flags)
}

// A flag for each vertex where no face names one.
#[tactic(auto, using(crate::proofs::NamedLaws::none_named))]
fn unnamed(alloc: Global, vertices: usize) -> Result<Vec<bool>, OutOfMemory>
    ensures { IfOk result (λ flags. flags.items ≡ named_in [] vertices) }
{
    vec![in alloc; false; vertices]
}

// Sets the flags of the corners of one more face.
#[tactic(auto, using(crate::proofs::NamedLaws::corners_named))]
fn name_corners(flags: &mut Vec<bool>, face: Corners)
    requires { AreVerticesBelow (length flags.old.items) face }
    ensures { (before : List FaceCorners) (n : ℕ) → flags.old.items ≡ named_in before n
        → flags.new.items ≡ named_in (before ++ face ∷ []) n }
{
    flags[face.a as usize] = true;
    flags[face.b as usize] = true;
    flags[face.c as usize] = true;
}

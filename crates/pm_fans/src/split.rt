//! Each vertex is split into its fans.
ghost use Rattle.std.specs.Prelude.{IfOk};
ghost use Rattle.pm_base.specs.Sides.{net_of};
ghost use Rattle.pm_fans.specs.Splits.{IsCuttable};
ghost use Rattle.pm_fans.specs.Orders.{IsSplitMesh};

use crate::OutOfMemory;
use crate::chains::chain_heads;
use crate::glue::glued_sides;
use crate::numbers::{head_keys, key_places, new_faces, old_vertices};
use pm_base::Corners;
use std::alloc::Global;

/// Faces with new vertices, and the old vertex of each new one.
#[derive(Drop)]
pub struct Split {
    pub faces: Vec<Corners>,
    pub old: Vec<u32>,
}

/// The mesh of the faces, cut along every side that isn't glued, with each vertex split into what
/// is left of its fans. Faces and corners keep their order. The new vertices are numbered by the
/// old ones; of one old vertex's those with an open chain of sides come first, and then by the
/// chain's first side, of a closed one by its least. There may be up to three a face. O(F log F)
/// for F faces.
pub fn split_by_fans(alloc: Global, faces: &[Corners]) -> Result<Split, OutOfMemory>
    requires { IsCuttable (net_of faces.now) }
    ensures { IfOk result (λ s. IsSplitMesh (net_of faces.now) s.faces.items s.old.items) }
{
    let glued = glued_sides(alloc, faces)?;
    let heads = chain_heads(alloc, &glued)?;
    let keys = head_keys(alloc, faces, &glued, &heads)?;
    let places = key_places(alloc, &keys, heads.len() as usize)?;
    let old = old_vertices(alloc, faces, &keys)?;
    let faces = new_faces(alloc, &heads, &places, faces.len() as u32)?;
    Ok(Split { faces, old })
}

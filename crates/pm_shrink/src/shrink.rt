//! A surface that shrinks, collapse by collapse.
use crate::rims::RimTable;
use crate::tables::Tables;
use std::alloc::AllocError;
use std::marker::Model;

/// The answer for want of memory.
pub type OutOfMemory = AllocError;

/// A mesh that is being simplified. Contracts see the faces that are still there, the places of the
/// live vertices, and by vertex number the lists of corners.
///
/// Vertices are named by numbers, and each collapse makes the next one. Only `new` takes memory,
/// some 60 bytes a face and 50 a point: there is room for as many later vertices as there are
/// points, since each collapse takes two away for one.
#[derive(Drop)]
pub struct Shrink {
    pub(crate) tables: Tables,
    // A border side from each vertex, where one was noted that is still one.
    pub(crate) rims: RimTable,
}

impl Model for Shrink {
    ghost use Rattle.pm_shrink.specs.Shrinking.{Shrinking};
    ghost use Rattle.pm_shrink.specs.Tables.{tables_of, shrinking_in, IsShrink};

    ghost Value = { Shrinking };

    ghost view = { λ s. shrinking_in (tables_of s.tables) };

    ghost invariant = { λ s. IsShrink (tables_of s.tables) };
}

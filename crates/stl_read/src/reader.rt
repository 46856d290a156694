//! What was read of a binary file.
ghost use Rattle.std.specs.Prelude.{◌≡◌, ◌≤◌, IfOk, OnOk, IfErr, length, Ok, []};
ghost use Rattle.pm_base.specs.declared.limits.TheConstants.{MOST_VERTICES, MOST_FACES};
ghost use Rattle.stl_read.specs.Meaning.{Explains};
ghost use Rattle.stl_read.specs.Numbering.{AreNumbered};
ghost use Rattle.stl_read.specs.Recent.{AreKnown, AreWordsOf};
ghost use Rattle.stl_read.specs.Vertices.{corner_of};

use crate::OutOfMemory;
use crate::fault::StlFail;
use crate::recent::{Recent, Words};
use crate::vertices::Vertices;
use obj_prepare::ExactPoint;
use std::alloc::Global;

// The most slots for the last corners: those of some rows of a large grid, in memory that stays
// near the processor.
const MOST_SLOTS: usize = 65_536;

/// The vertices so far, and the last corners.
#[derive(Drop)]
pub(crate) struct Reader {
    pub vertices: Vertices,
    pub recent: Recent,
}

impl Reader {
    /// Two slots for each facet are about four for each point of a surface.
    pub(crate) fn new(alloc: Global, facets: usize) -> Result<Reader, OutOfMemory>
        requires { facets ≤ MOST_FACES }
        ensures points { IfOk result (λ r. r.vertices.points.items ≡ []) }
        ensures numbered { IfOk result (λ r. AreNumbered r.vertices) }
        ensures known { IfOk result
            (λ r. AreKnown r.vertices.points.items r.recent.slots.items) }
    {
        let recent = Recent::new(alloc, MOST_SLOTS.min(facets + 1))?;
        let vertices = Vertices::new(alloc, 2 * facets + 1)?;
        Ok(Reader { vertices, recent })
    }

    /// Puts down the point that words tell, and answers its number.
    pub(crate) fn put(&mut self, words: Words, p: &ExactPoint, at: usize) -> Result<u32, StlFail>
        requires told { AreWordsOf words p.now }
        requires numbered { AreNumbered self.old.vertices }
        requires few { length self.old.vertices.points.items ≤ MOST_VERTICES }
        requires known { AreKnown self.old.vertices.points.items self.old.recent.slots.items }
        ensures ok { IfOk result
            (λ v. corner_of at self.old.vertices.points.items p.now
            ≡ Ok (record { vertex = v; points = self.new.vertices.points.items })) }
        ensures numbered { OnOk result (AreNumbered self.new.vertices) }
        ensures few { OnOk result (length self.new.vertices.points.items ≤ MOST_VERTICES) }
        ensures known { OnOk result
            (AreKnown self.new.vertices.points.items self.new.recent.slots.items) }
        ensures err { IfErr result
            (Explains (corner_of at self.old.vertices.points.items p.now)) }
    {
        match self.vertices.corner(p, at) {
            Ok(vertex) => {
                self.recent.note(words, vertex);
                Ok(vertex)
            }
            Err(fail) => Err(fail),
        }
    }
}

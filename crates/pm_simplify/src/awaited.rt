//! At which vertices a pair may wait for a face, so that no other vertex is walked around to find
//! one.
ghost use Rattle.std.specs.Prelude.{◌≡◌, true, false, slice_set, replicate, IfOk};
ghost use Rattle.pm_simplify.specs.AwaitedVertices.{is_awaited};

use crate::run::OutOfMemory;
use std::alloc::Global;
use std::marker::Model;

/// A flag for each vertex number. Contracts see the flags; a vertex past them counts as flagged.
#[derive(Drop)]
pub(crate) struct AwaitedVertices {
    flags: Vec<bool>,
}

impl Model for AwaitedVertices {
    ghost use Rattle.std.specs.Prelude.{List, Bool};

    ghost Value = { List Bool };

    ghost view = { λ a. a.flags.items };
}

impl AwaitedVertices {
    /// No vertex of so many is flagged. The only call that takes memory: a byte a vertex.
    pub(crate) fn new(alloc: Global, vertices: usize) -> Result<AwaitedVertices, OutOfMemory>
        ensures { IfOk result (λ awaited. awaited ≡ replicate vertices false) }
    {
        let flags = vec![in alloc; false; vertices]?;
        Ok(AwaitedVertices { flags })
    }

    /// Whether a vertex is flagged.
    pub(crate) fn has(&self, vertex: u32) -> bool
        ensures { result ≡ is_awaited self.now vertex }
    {
        match self.flags.get(vertex as usize) {
            None => true,
            Some(flag) => *flag,
        }
    }

    /// Flags a vertex.
    pub(crate) fn note(&mut self, vertex: u32)
        ensures { self.new ≡ slice_set self.old vertex true }
    {
        if (vertex as usize) < self.flags.len() {
            self.flags[vertex as usize] = true;
        }
    }
}

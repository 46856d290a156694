//! Vertices that are known to be on the border, at one look-up each.
ghost use Rattle.std.specs.Prelude.{◌≡◌, true, false, slice_set, replicate, IfOk};
ghost use Rattle.pm_base.specs.Sides.{Stands};
ghost use Rattle.pm_shrink.specs.Shrinking.{net_at};
ghost use Rattle.pm_simplify.specs.KnownBorder.{is_noted, AreOnBorder};

use crate::items::next;
use crate::run::OutOfMemory;
use pm_base::Side;
use pm_shrink::Shrink;
use std::alloc::Global;
use std::marker::Model;

/// A flag for each vertex number. Contracts see the flags; a vertex past them isn't noted.
#[derive(Drop)]
pub(crate) struct KnownBorder {
    flags: Vec<bool>,
}

impl Model for KnownBorder {
    ghost use Rattle.std.specs.Prelude.{List, Bool};

    ghost Value = { List Bool };

    ghost view = { λ b. b.flags.items };
}

impl KnownBorder {
    /// No vertex of so many is noted. The only call that takes memory: a byte a vertex.
    pub(crate) fn new(alloc: Global, vertices: usize) -> Result<KnownBorder, OutOfMemory>
        ensures { IfOk result (λ border. border ≡ replicate vertices false) }
    {
        let flags = vec![in alloc; false; vertices]?;
        Ok(KnownBorder { flags })
    }

    /// Whether a vertex is noted.
    pub(crate) fn has(&self, vertex: u32) -> bool
        ensures { result ≡ is_noted self.now vertex }
    {
        match self.flags.get(vertex as usize) {
            None => false,
            Some(flag) => *flag,
        }
    }

    // Notes a vertex.
    fn note(&mut self, vertex: u32)
        ensures { self.new ≡ slice_set self.old vertex true }
    {
        if (vertex as usize) < self.flags.len() {
            self.flags[vertex as usize] = true;
        }
    }

    /// Notes both ends of a side that is known to be barred.
    pub(crate) fn learn(&mut self, shrink: &Shrink, side: Side)
        requires { Stands (net_at shrink.now) side.0 }
        ensures { AreOnBorder shrink.now.surface self.old
            → AreOnBorder shrink.now.surface self.new }
    {
        shrink.invariant();
        if shrink.is_barred(side) {
            self.note(shrink.vertex_at(side));
            self.note(shrink.vertex_at(next(shrink, side)));
        }
    }
}

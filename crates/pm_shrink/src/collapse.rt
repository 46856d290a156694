//! The collapse of a pair.
ghost use Rattle.std.specs.Prelude.{◌≡◌, ◌<◌, true, List, [], ◌∷◌, ◌++◌};
ghost use Rattle.pm_base.specs.Fans.{IsOrientedManifold};
ghost use Rattle.pm_base.specs.declared.log.Collapse.{Collapse as Entry};
ghost use Rattle.pm_base.specs.Meshes.{Mesh};
ghost use Rattle.pm_runs.specs.Surfaces.{is_live as is_live_in, collapsed};
ghost use Rattle.pm_runs.specs.Pairs.{IsLegalPair};
ghost use Rattle.pm_runs.specs.Steps.{gone_of, entry_of};
ghost use Rattle.pm_shrink.specs.Shrinking.{net_at};
ghost use Rattle.pm_shrink.specs.Following.{IsAfter};

use crate::Shrink;
use pm_base::{Collapse, Gone, Point};

impl Shrink {
    /// Collapses a pair that is legal at the place: both ends become the next vertex, there, and
    /// the faces that hold both are dropped. Only the faces at the two ends are touched. The answer
    /// is the log's entry, with what stood across the other sides of the dropped faces.
    pub fn collapse(&mut self, a: u32, b: u32, place: Point) -> Collapse
        requires ordered { a < b }
        requires legal { IsLegalPair self.old.surface a b place }
        ensures manifold { IsOrientedManifold (net_at self.new) }
        ensures surface { self.new.surface ≡ collapsed self.old.surface a b place }
        ensures entry { result ≡ entry_of self.old.surface a b place }
        ensures after { (m : Mesh) (log : List Entry) → IsAfter m log self.old
            → IsAfter m (log ++ result ∷ []) self.new }
    {
        let entry = self.merge(a, b, place);
        self.note_merged(a, b, entry.left, entry.right);
        entry
    }

    // The same, but that no border side is noted.
    fn merge(&mut self, a: u32, b: u32, place: Point) -> Collapse
        requires ordered { a < b }
        requires legal { IsLegalPair self.old.surface a b place }
        ensures manifold { IsOrientedManifold (net_at self.new) }
        ensures surface { self.new.surface ≡ collapsed self.old.surface a b place }
        ensures entry { result ≡ entry_of self.old.surface a b place }
        ensures after { (m : Mesh) (log : List Entry) → IsAfter m log self.old
            → IsAfter m (log ++ result ∷ []) self.new }
    {
        let entry = self.entry(a, b, place);
        self.tables.collapse(&entry);
        entry
    }

    // The log's entry for a pair.
    fn entry(&self, a: u32, b: u32, place: Point) -> Collapse
        requires a_live { is_live_in self.now.surface a ≡ true }
        requires b_live { is_live_in self.now.surface b ≡ true }
        ensures { result ≡ entry_of self.now.surface a b place }
    {
        Collapse {
            t: a,
            u: b,
            s: self.next_vertex(),
            place,
            left: self.gone(a, b),
            right: self.gone(b, a),
        }
    }

    // The face in which p is followed by q, with what stands across its two other sides.
    fn gone(&self, p: u32, q: u32) -> Option<Gone>
        requires p_live { is_live_in self.now.surface p ≡ true }
        requires q_live { is_live_in self.now.surface q ≡ true }
        ensures { result ≡ gone_of (net_at self.now) p q }
    {
        match self.side_to(p, q) {
            None => None,
            Some(side) => Some(Gone {
                face: side.face(),
                first: self.across(self.next_side(side)),
                second: self.across(self.prev_side(side)),
            }),
        }
    }
}

//! The place and the cost of a pair, by the policy of a run.
ghost use Rattle.std.specs.Prelude.{◌≡◌, ◌<◌, List, [], ◌∷◌, ◌++◌, true};
ghost use Rattle.pm_base.specs.declared.log.Collapse.{Collapse as Entry};
ghost use Rattle.pm_base.specs.Meshes.{Mesh};
ghost use Rattle.pm_runs.specs.Surfaces.{is_live as is_live_in};
ghost use Rattle.pm_policies.specs.Policies.{Policy, place_by, key_by};
ghost use Rattle.pm_shrink.specs.Following.{IsAfter};
ghost use Rattle.pm_costs.specs.Following.{Follows};

use pm_base::{Collapse, Point};
use pm_shrink::Shrink;

/// What tells of each pair its place and its cost, collapse by collapse beside the mesh that is
/// being simplified.
pub trait Costs {
    /// It goes by a policy: it holds what the policy gives the live vertices after the collapses of
    /// a log of the mesh.
    ghost goes_by: { Self → Policy → Mesh → List Entry → Type 0 };

    /// The place of a pair of live vertices, the lesser one first, and its cost there.
    fn best(&self, shrink: &Shrink, a: u32, b: u32) -> (Point, u128)
        requires known { Follows shrink.now (goes_by self.now) }
        requires ordered { a < b }
        requires a_live { is_live_in shrink.now.surface a ≡ true }
        requires b_live { is_live_in shrink.now.surface b ≡ true }
        ensures place { (p : Policy) (m : Mesh) (log : List Entry) → IsAfter m log shrink.now
            → goes_by self.now p m log → result.0 ≡ place_by p m log a b }
        ensures cost { (p : Policy) (m : Mesh) (log : List Entry) → IsAfter m log shrink.now
            → goes_by self.now p m log → result.1 ≡ (key_by p m log a b).cost };

    /// Where a pair of live vertices with this place is put, if it is legal there.
    fn put(&self, shrink: &Shrink, a: u32, b: u32, place: Point) -> Point
        requires known { Follows shrink.now (goes_by self.now) }
        requires a_live { is_live_in shrink.now.surface a ≡ true }
        requires b_live { is_live_in shrink.now.surface b ≡ true }
        ensures { (p : Policy) (m : Mesh) (log : List Entry) → IsAfter m log shrink.now
            → goes_by self.now p m log → result ≡ p.put shrink.now.surface a b place };

    /// Goes on over a collapse. The mesh is the one after it.
    fn merged(&mut self, shrink: &Shrink, entry: &Collapse)
        requires known { (p : Policy) × (m : Mesh) × (log : List Entry)
            × IsAfter m (log ++ entry.now ∷ []) shrink.now × goes_by self.old p m log }
        ensures goes_on { (p : Policy) (m : Mesh) (log : List Entry)
            → IsAfter m (log ++ entry.now ∷ []) shrink.now → goes_by self.old p m log
            → goes_by self.new p m (log ++ entry.now ∷ []) };
}

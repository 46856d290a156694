//! Gathers the faces that are put, from the corners at new nodes.
ghost use Rattle.std.specs.Prelude.{◌≡◌, ◌+◌, ◌<◌, ◌≤◌, ℕ, Bool, true, length};
ghost use Rattle.pm_base.specs.Counts.{set_of};
ghost use Rattle.pm_base.specs.Sides.{face_of};
ghost use Rattle.pm_links.specs.Lists.{has};
ghost use Rattle.pm_sets.specs.Sets.{IsEmptySet};
ghost use Rattle.pm_forest.specs.Forest.{node_count};
ghost use Rattle.pm_forest.specs.Fronts.{is_active};
ghost use Rattle.pm_forest.specs.Faces.{face_count};
ghost use Rattle.pm_front.specs.Corners.{listed};
ghost use Rattle.pm_change.specs.Changes.{is_put, new_nodes};
ghost use Rattle.pm_change.specs.Laws.{new_corners};
ghost use Rattle.pm_change.specs.Gathering.{Gathers, AreJust, AreNewSince, is_face_in};

use pm_base::NodeId;
use pm_front::Front;
use pm_sets::NumberSet;
use pm_view::Steps;
use std::sync::ledger::Ledger;

// Puts in the faces with a corner at a node.
fn see_corners<L: Ledger>(front: &Front, node: NodeId, put: &mut NumberSet, steps: &mut Steps<L>)
    requires node { node.0 < node_count front.now.h }
    requires active { is_active front.now.h (set_of front.now.flags) node.0 ≡ true }
    requires len { length put.old ≡ face_count front.now.h }
    ensures put { Gathers (is_face_in (listed front.now.corners node.0)) put.old put.new }
    ensures seen { (e : ℕ) → has (listed front.now.corners node.0) e ≡ true
        → set_of put.new (face_of e) ≡ true }
    ensures cost { steps.new ≤ steps.old + length (listed front.now.corners node.0) }
{
    front.invariant();
    let mut at = front.first_corner(node);
    while let Some(corner) = at {
        steps.tick();
        put.insert(corner.face().0);
        at = front.next_corner(corner);
    }
}

/// Puts in the faces with a corner at one of the new nodes.
pub(crate) fn gather_puts<L: Ledger>(
    front: &Front,
    new: &NumberSet,
    put: &mut NumberSet,
    steps: &mut Steps<L>,
)
    requires new { length new.now ≡ node_count front.now.h }
    requires active { (v : ℕ) → set_of new.now v ≡ true
        → is_active front.now.h (set_of front.now.flags) v ≡ true }
    requires len { length put.old ≡ face_count front.now.h }
    requires empty { IsEmptySet put.old }
    ensures put { (S : ℕ → Bool) → AreNewSince front.now.h S (set_of front.now.flags) new.now
        → AreJust (is_put front.now.h S (set_of front.now.flags)) (face_count front.now.h) put.new }
    ensures cost { (S : ℕ → Bool) → AreNewSince front.now.h S (set_of front.now.flags) new.now
        → steps.new ≤ steps.old + length (new_nodes front.now.h S (set_of front.now.flags))
        + length (new_corners front.now.h S (set_of front.now.flags)) }
{
    front.invariant();
    let mut from = 0;
    while let Some(node) = new.first_from(from) {
        steps.tick();
        see_corners(front, NodeId(node), put, steps);
        from = node + 1;
    }
}

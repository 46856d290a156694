//! The corners of a node that is split are dealt to its children.
ghost use Rattle.std.specs.Prelude.{◌≡◌, ◌*◌, ◌<◌, ℕ, [], cond, drop, length};
ghost use Rattle.pm_links.specs.Lists.{list_of, with_first, without_item, AreFirst};
ghost use Rattle.pm_links.specs.Lists.{IsHeld, IsSound};
ghost use Rattle.pm_links.specs.Dealt.{dealt};
ghost use Rattle.pm_forest.specs.Forest.{node_count, record_count, s_of, t_of, u_of};
ghost use Rattle.pm_forest.specs.Forest.{holds as holds_in};
ghost use Rattle.pm_forest.specs.Faces.{face_count, from_leaf};
ghost use Rattle.pm_front.specs.Corners.{dealt_list, goes_to};

use crate::corners::leaf;
use pm_base::NodeId;
use pm_forest::Hierarchy;
use pm_links::Links;
use pm_sides::holds;

// How many corners of a node are read ahead: few nodes have more.
const AHEAD: usize = 32;

// Deals a corner to one of two nodes, by its leaf.
fn deal_one(h: &Hierarchy, corners: &mut Links, t: NodeId, u: NodeId, corner: u32)
    requires t { t.0 < node_count h.now }
    requires u { u.0 < node_count h.now }
    requires corner { corner < 3 * face_count h.now }
    requires items { corners.old.items ≡ 3 * face_count h.now }
    requires heads { length corners.old.lists ≡ node_count h.now }
    requires held { IsHeld corners.old corner }
    ensures lists { corners.new ≡ with_first (without_item corners.old corner)
        (cond (holds_in h.now t.0 (from_leaf h.now corner)) t.0 u.0) corner }
    ensures sound { IsSound corners.new }
{
    corners.unlink(corner);
    let child = if holds(h, t, leaf(h, corner)) {
        t.0
    } else {
        u.0
    };
    corners.push_front(child, corner);
}

// Deals the first corners of the node of record `k` to its children, in order. What is left to deal
// ends where dealing all of them does.
fn deal_these(h: &Hierarchy, corners: &mut Links, k: u32, these: &[u32])
    requires record { k < record_count h.now }
    requires items { corners.old.items ≡ 3 * face_count h.now }
    requires heads { length corners.old.lists ≡ node_count h.now }
    requires first { AreFirst these.now (list_of corners.old (s_of h.now k)) }
    requires sound { IsSound corners.old }
    ensures items { corners.new.items ≡ corners.old.items }
    ensures heads { length corners.new.lists ≡ length corners.old.lists }
    ensures rest { list_of corners.new (s_of h.now k)
        ≡ drop (length these.now) (list_of corners.old (s_of h.now k)) }
    ensures dealt { (v : ℕ)
        → dealt (goes_to h.now k (t_of h.now k)) corners.new (s_of h.now k) (t_of h.now k)
        (u_of h.now k) v
        ≡ dealt (goes_to h.now k (t_of h.now k)) corners.old (s_of h.now k) (t_of h.now k)
        (u_of h.now k) v }
    ensures sound { IsSound corners.new }
{
    h.invariant();
    let (t, u) = h.children(k);
    for corner in these {
        deal_one(h, corners, t, u, *corner);
    }
}

/// Deals the corners of the node of record `k` to its children, each by its leaf.
pub(crate) fn deal(h: &Hierarchy, corners: &mut Links, k: u32)
    requires record { k < record_count h.now }
    requires items { corners.old.items ≡ 3 * face_count h.now }
    requires heads { length corners.old.lists ≡ node_count h.now }
    requires t_empty { list_of corners.old (t_of h.now k) ≡ [] }
    requires u_empty { list_of corners.old (u_of h.now k) ≡ [] }
    ensures items { corners.new.items ≡ corners.old.items }
    ensures heads { length corners.new.lists ≡ length corners.old.lists }
    ensures lists { (v : ℕ) → list_of corners.new v ≡ dealt_list h.now k corners.old.lists v }
{
    h.invariant();
    let s = h.record_at(k).s;
    let (t, u) = h.children(k);
    // The corners are read ahead, from both ends of the list: they lie far apart, and each read
    // waits for the one before.
    let mut room = [0; AHEAD];
    let ends = corners.gather(s, &mut room);
    deal_these(h, corners, k, &room[..ends.front]);
    deal_these(h, corners, k, &room[ends.back..]);
    while let Some(corner) = corners.first(s) {
        deal_one(h, corners, t, u, corner);
    }
}

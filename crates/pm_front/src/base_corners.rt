//! The corner lists of the base front, made of the corners of base faces alone: it has no other
//! corners.
ghost use Rattle.std.specs.Prelude.{◌≡◌, ◌*◌};
ghost use Rattle.pm_links.specs.Lists.{empty_lists};
ghost use Rattle.pm_forest.specs.Forest.{node_count};
ghost use Rattle.pm_forest.specs.Faces.{face_count};
ghost use Rattle.pm_front.specs.Corners.{base_lists, full_base_lists};

use crate::corners::leaf;
use pm_forest::Hierarchy;
use pm_links::Links;
use pm_sides::IndexedHierarchy;

// Puts each corner of a base face in the list of its leaf's node, ascending.
fn list_at_leaves(h: &Hierarchy, corners: &mut Links)
    requires { corners.old ≡ empty_lists (3 * face_count h.now) (node_count h.now) }
    ensures items { corners.new.items ≡ corners.old.items }
    ensures lists { corners.new.lists ≡ full_base_lists h.now }
{
    let mut corner = 3 * h.bases();
    while corner > 0 {
        corner -= 1;
        corners.push_front(h.leaf_node(leaf(h, corner)).0, corner);
    }
}

// From the last record down, puts the corners of a record's two children in the list of its node.
fn gather(indexed: &IndexedHierarchy, corners: &mut Links)
    requires { corners.old.lists ≡ full_base_lists indexed.now }
    ensures items { corners.new.items ≡ corners.old.items }
    ensures lists { corners.new.lists ≡ base_lists indexed.now }
{
    indexed.invariant();
    let h = indexed.hierarchy();
    let mut k = h.records();
    while k > 0 {
        k -= 1;
        let s = indexed.split_node(k).0;
        let (t, u) = h.children(k);
        corners.move_all(t.0, s);
        corners.move_all(u.0, s);
    }
}

/// The corner lists of the base front, where all lists are empty. It goes once through the base
/// faces' corners and once through the records, each time from the last one down, and takes no
/// memory.
pub(crate) fn base_corners(indexed: &IndexedHierarchy, corners: &mut Links)
    requires { corners.old ≡ empty_lists (3 * face_count indexed.now) (node_count indexed.now) }
    ensures items { corners.new.items ≡ corners.old.items }
    ensures lists { corners.new.lists ≡ base_lists indexed.now }
{
    list_at_leaves(indexed.hierarchy(), corners);
    gather(indexed, corners);
}

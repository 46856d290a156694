//! Whether beyond the sides of a record's faces stands what the record tells of them.
ghost use Rattle.std.specs.Prelude.{◌≡◌, ◌<◌, ◌*◌, IsTrue, ◌↔◌, Some, true, length, IfSome};
ghost use Rattle.pm_base.specs.Sides.{NoSideTwice, beside_side};
ghost use Rattle.pm_base.specs.declared.limits.TheConstants.{MOST_SIDES};
ghost use Rattle.pm_forest.specs.Forest.{record_count};
ghost use Rattle.pm_forest.specs.Fronts.{IsFront};
ghost use Rattle.pm_base.specs.Counts.{set_of};
ghost use Rattle.pm_forest.specs.Faces.{face_count, record_of};
ghost use Rattle.pm_beyond.specs.Walks.{leaf_net, expected, beyond_of, number_of};
ghost use Rattle.pm_beyond.specs.Moves.{same_side};
ghost use Rattle.pm_sides.specs.Stored.{AreStored};
ghost use Rattle.pm_sides.specs.Told.{TellsAll, HasSides, tells_face};

use crate::indexed::IndexedHierarchy;
use crate::record_face::RecordFace;
use crate::table::SideTable;
use pm_base::Side;

impl SideTable {
    /// Whether beyond a side of a face of record `k`, which is split, stands what the record tells.
    /// O(1).
    pub fn is_as_told(&self, indexed: &IndexedHierarchy, split: &[bool], k: u32, side: Side) -> bool
        requires once { NoSideTwice (leaf_net indexed.now) }
        requires front { IsFront indexed.now (set_of split.now) }
        requires is_split { set_of split.now k ≡ true }
        requires stored { AreStored indexed.now (set_of split.now) self.now }
        requires side { side.0 < 3 * face_count indexed.now }
        requires own { record_of indexed.now side.0 ≡ Some k }
        ensures { result
            ≡ same_side (beyond_of indexed.now (set_of split.now) side.0)
            (expected indexed.now side.0) }
    {
        indexed.invariant();
        self.has_beside(side, indexed.expected(side))
    }

    /// Whether beyond each side of the faces of record `k`, which is split, stands what the record
    /// tells. O(1).
    pub fn tells_all(&self, indexed: &IndexedHierarchy, split: &[bool], k: u32) -> bool
        requires record { k < record_count indexed.now }
        requires once { NoSideTwice (leaf_net indexed.now) }
        requires front { IsFront indexed.now (set_of split.now) }
        requires is_split { set_of split.now k ≡ true }
        requires stored { AreStored indexed.now (set_of split.now) self.now }
        ensures { IsTrue result ↔ TellsAll indexed.now (set_of split.now) k }
    {
        indexed.invariant();
        let left = indexed.left_face(k);
        let right = indexed.right_face(k);
        self.tells_face(left, right) && self.tells_face(right, left)
    }

    // Whether beside the sides of a record's face, if it is there, stands what the record tells. Of
    // the inner side it tells that of its other face.
    fn tells_face(&self, face: Option<RecordFace<'_>>, other: Option<RecordFace<'_>>) -> bool
        requires sides { IfSome face (λ f. HasSides self.now f.inner.0) }
        requires small { IfSome face (λ f. f.inner.0 < MOST_SIDES) }
        ensures { result ≡ tells_face self.now face.entry other.entry }
    {
        let Some(face) = face else {
            return true;
        };
        let first = face.inner.next();
        self.has_beside(first, face.told.first)
            && self.has_beside(first.next(), face.told.second)
            && self.has_beside(face.inner, other.map(|o| o.inner))
    }

    // Whether another side, or none, stands beside a side.
    fn has_beside(&self, side: Side, other: Option<Side>) -> bool
        requires { side.0 < length self.now }
        ensures { result ≡ same_side (beside_side self.now side.0) (number_of other) }
    {
        self.beyond(side) == other
    }
}

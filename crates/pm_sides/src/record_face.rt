//! The faces of a record by their sides, with what the record tells of them.
ghost use Rattle.std.specs.Prelude.{◌≡◌, ◌+◌, ◌<◌, is_some, IfSome};
ghost use Rattle.pm_base.specs.Counts.{one_if};
ghost use Rattle.pm_forest.specs.Forest.{record_at, record_count};
ghost use Rattle.pm_forest.specs.Faces.{first_face};
ghost use Rattle.pm_sides.specs.Told.{IsFaceOf};

use crate::indexed::IndexedHierarchy;
use pm_base::{FaceId, Side};
use pm_forest::NewFace;

/// A face of a record: its inner side, and what the record tells of it.
#[derive(Clone, Copy)]
pub(crate) struct RecordFace<'a> {
    pub inner: Side,
    pub told: &'a NewFace,
}

impl IndexedHierarchy {
    /// The left face of record `k`, if it has one. O(1).
    pub(crate) fn left_face(&self, k: u32) -> Option<RecordFace<'_>>
        requires { k < record_count self.now }
        ensures there { is_some result ≡ is_some (record_at self.now k).left }
        ensures face { IfSome result (IsFaceOf self.now k (first_face self.now k)) }
    {
        let told = self.hierarchy().record_at(k).left.as_ref()?;
        let face = FaceId(self.first_face(k));
        Some(RecordFace {
            inner: self.inner(k, face),
            told,
        })
    }

    /// The right face of record `k`, if it has one. O(1).
    pub(crate) fn right_face(&self, k: u32) -> Option<RecordFace<'_>>
        requires { k < record_count self.now }
        ensures there { is_some result ≡ is_some (record_at self.now k).right }
        ensures face { IfSome result (IsFaceOf self.now k
            (first_face self.now k + one_if (is_some (record_at self.now k).left))) }
    {
        let change = self.hierarchy().record_at(k);
        let told = change.right.as_ref()?;
        let face = FaceId(self.first_face(k) + u32::from(change.left.is_some()));
        Some(RecordFace {
            inner: self.inner(k, face),
            told,
        })
    }
}

//! The kept faces, in the base front and after a move.
ghost use Rattle.std.specs.Prelude.{◌≡◌, ◌<◌, [], true, false};
ghost use Rattle.pm_forest.specs.Forest.{record_count};
ghost use Rattle.pm_forest.specs.Fronts.{no_records, with, without};
ghost use Rattle.pm_forest.specs.Faces.{face_count};
ghost use Rattle.pm_base.specs.Counts.{set_of};
ghost use Rattle.pm_front.specs.Active.{AreShown};

use crate::members::{Members, put_in, take_out};
use pm_forest::Hierarchy;
use pm_sides::IndexedHierarchy;

/// The kept faces of the base front: the base faces.
pub(crate) fn base_kept(h: &Hierarchy, faces: &mut Members)
    requires { faces.old ≡ record { bound = face_count h.now; list = [] } }
    ensures bound { faces.new.bound ≡ faces.old.bound }
    ensures right { AreShown h.now no_records faces.new.list }
{
    put_in(faces, 0, h.bases());
}

/// The kept faces once record `k` is split: its own too.
pub(crate) fn split_kept(indexed: &IndexedHierarchy, flags: &[bool], faces: &mut Members, k: u32)
    requires record { k < record_count indexed.now }
    requires unsplit { set_of flags.now k ≡ false }
    requires bound { faces.old.bound ≡ face_count indexed.now }
    requires right { AreShown indexed.now (set_of flags.now) faces.old.list }
    ensures right { AreShown indexed.now (with (set_of flags.now) k) faces.new.list }
    ensures bound { faces.new.bound ≡ faces.old.bound }
{
    put_in(faces, indexed.first_face(k), indexed.face_after(k));
}

/// The kept faces once record `k` is collapsed: its own no longer.
pub(crate) fn collapse_kept(indexed: &IndexedHierarchy, flags: &[bool], faces: &mut Members, k: u32)
    requires record { k < record_count indexed.now }
    requires is_split { set_of flags.now k ≡ true }
    requires bound { faces.old.bound ≡ face_count indexed.now }
    requires right { AreShown indexed.now (set_of flags.now) faces.old.list }
    ensures right { AreShown indexed.now (without (set_of flags.now) k) faces.new.list }
    ensures bound { faces.new.bound ≡ faces.old.bound }
{
    take_out(faces, indexed.first_face(k), indexed.face_after(k));
}

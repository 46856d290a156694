//! The faces of a record.
ghost use Rattle.std.specs.Prelude.{◌≡◌, ◌+◌, ◌<◌, ◌≤◌, nat_lt, is_some};
ghost use Rattle.pm_base.specs.Counts.{one_if};
ghost use Rattle.pm_forest.specs.Forest.{record_count};
ghost use Rattle.pm_forest.specs.Faces.{first_face as first_face_of, face_count};

use pm_base::FaceId;
use pm_forest::{Hierarchy, Record};
use pm_view::Steps;
use std::sync::ledger::Ledger;

// Whether a face comes before those of record `k`.
#[tactic(auto, using(crate::proofs::FaceLaws::base_before, crate::proofs::FaceLaws::face_before))]
fn comes_before(h: &Hierarchy, face: u32, k: u32) -> bool
    requires face { face < face_count h.now }
    requires record { k < record_count h.now }
    ensures { result ≡ nat_lt face (first_face_of h.now k) }
{
    match h.revealed_by(FaceId(face)) {
        None => true,
        Some(revealer) => revealer < k,
    }
}

/// How many faces a record brings in.
pub(crate) fn new_faces(change: &Record) -> u32
    ensures { result ≡ one_if (is_some change.now.left) + one_if (is_some change.now.right) }
{
    u32::from(change.left.is_some()) + u32::from(change.right.is_some())
}

/// The number of the first face of record `k`. A record has two faces at most, so it is among a
/// few: where each record has two, it is known at once. It counts a step for each face that it
/// looks at, and that is halving, 21 at most.
pub(crate) fn first_face<L: Ledger>(h: &Hierarchy, k: u32, steps: &mut Steps<L>) -> u32
    requires { k < record_count h.now }
    ensures value { result ≡ first_face_of h.now k }
    ensures cost { steps.new ≤ steps.old + 21 }
{
    h.invariant();
    let mut low = h.faces().saturating_sub(2 * (h.records() - k));
    let mut high = h.faces().min(h.bases() + 2 * k);
    while low < high {
        steps.tick();
        let middle = low + (high - low) / 2;
        if comes_before(h, middle, k) {
            low = middle + 1;
        } else {
            high = middle;
        }
    }
    low
}

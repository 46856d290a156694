//! What a record needs is put in the set of records to be decided.
ghost use Rattle.std.specs.Prelude.{◌≡◌, ◌<◌, length, IfSome};
ghost use Rattle.std.specs.List.{All};
ghost use Rattle.pm_base.specs.Counts.{set_of};
ghost use Rattle.pm_beyond.specs.Moves.{is_at};
ghost use Rattle.pm_candidates.specs.Candidates.{is_among};
ghost use Rattle.pm_refine.specs.Holding.{Joins};

use pm_sets::NumberSet;

// Puts a record in the set, if there is one.
#[tactic(auto, using(crate::proofs::MarkLaws::marked))]
fn push(work: &mut NumberSet, found: Option<u32>)
    requires { IfSome found (λ k. k < length work.old) }
    ensures work_len { length work.new ≡ length work.old }
    ensures joined { Joins (set_of work.old) (set_of work.new) (λ j. is_at j found) }
{
    if let Some(k) = found {
        work.insert(k);
    }
}

/// Puts each of these records in the set.
pub(crate) fn push_all(work: &mut NumberSet, needed: &[Option<u32>])
    requires there { All (λ need. IfSome need (λ k. k < length work.old)) needed.now }
    ensures work_len { length work.new ≡ length work.old }
    ensures joined { Joins (set_of work.old) (set_of work.new) (is_among needed.now) }
{
    for need in needed {
        push(work, *need);
    }
}

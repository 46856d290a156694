//! Marks on records: what a record needs is marked.
ghost use Rattle.std.specs.Prelude.{◌≡◌, ◌<◌, length, IfSome};
ghost use Rattle.std.specs.List.{All};
ghost use Rattle.pm_base.specs.Counts.{set_of};
ghost use Rattle.pm_beyond.specs.Moves.{is_at};
ghost use Rattle.pm_candidates.specs.Candidates.{is_among};
ghost use Rattle.pm_refine.specs.Holding.{Joins};

// Marks a record, if there is one.
#[tactic(auto, using(crate::proofs::MarkLaws::marked))]
fn mark(marks: &mut Vec<bool>, found: Option<u32>)
    requires { IfSome found (λ k. k < length marks.old.items) }
    ensures len { length marks.new.items ≡ length marks.old.items }
    ensures marked { Joins (set_of marks.old.items) (set_of marks.new.items) (λ j. is_at j found) }
{
    if let Some(k) = found {
        marks[k as usize] = true;
    }
}

/// Marks each of these records.
pub(crate) fn mark_all(marks: &mut Vec<bool>, needed: &[Option<u32>])
    requires there { All (λ need. IfSome need (λ k. k < length marks.old.items)) needed.now }
    ensures len { length marks.new.items ≡ length marks.old.items }
    ensures marked { Joins (set_of marks.old.items) (set_of marks.new.items) (is_among needed.now) }
{
    for need in needed {
        mark(marks, *need);
    }
}

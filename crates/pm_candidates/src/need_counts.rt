//! For each record how often the records of a set need it, once for each reason, so that whether
//! one of them needs it is answered by one look.
ghost use Rattle.std.specs.Prelude.{ℕ, ◌≡◌, ◌<◌, ◌≤◌, ◌+◌, ◌^◌, [], ◌∷◌, length, replicate};
ghost use Rattle.std.specs.Prelude.{slice_index_or, IfOk, IfSome};
ghost use Rattle.std.specs.List.{All};
ghost use Rattle.pm_candidates.specs.Needed.{times_in, AreRaised};

use crate::OutOfMemory;
use std::alloc::Global;
use std::marker::Model;

/// For each record how often the records of a set need it, once for each reason: the maker of a
/// record's node, and the revealers of the faces of its recorded neighbours, once for each.
/// Contracts see the counts.
#[derive(Drop)]
pub struct NeedCounts {
    counts: Vec<u32>,
}

impl Model for NeedCounts {
    ghost use Rattle.std.specs.Prelude.{ℕ, List};

    ghost Value = { List ℕ };

    ghost view = { λ n. n.counts.items };
}

/// Counts each of these needs once more.
pub fn raise_all(needs: &mut NeedCounts, needed: &[Option<u32>])
    requires there { All (λ need. IfSome need (λ k. k < length needs.old)) needed.now }
    requires room { (k : ℕ) → k < length needs.old
        → slice_index_or needs.old k 0 + times_in k needed.now < 2 ^ 32 }
    ensures { AreRaised needs.old needs.new needed.now }
{
    for need in needed {
        needs.raise(*need);
    }
}

/// Counts each of these needs once less.
pub fn lower_all(needs: &mut NeedCounts, needed: &[Option<u32>])
    requires there { All (λ need. IfSome need (λ k. k < length needs.old)) needed.now }
    requires counted { (k : ℕ) → k < length needs.old
        → times_in k needed.now ≤ slice_index_or needs.old k 0 }
    ensures { AreRaised needs.new needs.old needed.now }
{
    for need in needed {
        needs.lower(*need);
    }
}

impl NeedCounts {
    /// The counts of the empty set, for so many records. The only call that takes memory.
    pub fn new(alloc: Global, records: u32) -> Result<NeedCounts, OutOfMemory>
        ensures { IfOk result (λ c. c ≡ replicate records 0) }
    {
        let counts = vec![in alloc; 0; records as usize]?;
        Ok(NeedCounts { counts })
    }

    /// How often record `k` is needed. O(1).
    pub fn count(&self, k: u32) -> u32
        requires { k < length self.now }
        ensures { result ≡ slice_index_or self.now k 0 }
    {
        self.counts[k as usize]
    }

    /// Counts a need once more.
    pub(crate) fn raise(&mut self, need: Option<u32>)
        requires there { IfSome need (λ k. k < length self.old) }
        requires room { IfSome need (λ k. slice_index_or self.old k 0 + 1 < 2 ^ 32) }
        ensures { AreRaised self.old self.new (need ∷ []) }
    {
        if let Some(k) = need {
            self.counts[k as usize] += 1;
        }
    }

    /// Counts a need once less.
    pub(crate) fn lower(&mut self, need: Option<u32>)
        requires there { IfSome need (λ k. k < length self.old) }
        requires counted { IfSome need (λ k. 0 < slice_index_or self.old k 0) }
        ensures { AreRaised self.new self.old (need ∷ []) }
    {
        if let Some(k) = need {
            self.counts[k as usize] -= 1;
        }
    }
}

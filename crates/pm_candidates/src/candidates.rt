//! The records of which the next moves of a front are made, kept with each move, so that none has
//! to be looked for.
ghost use Rattle.std.specs.Prelude.{ℕ, ◌≡◌, ◌<◌, ◌≤◌, ◌+◌, ◌^◌, ◌∷◌, [], true, false, length};
ghost use Rattle.std.specs.Prelude.{Bool, replicate, slice_index_or, IfOk, IfSome};
ghost use Rattle.std.specs.List.{All};
ghost use Rattle.pm_forest.specs.Forest.{node_count, record_count, splitter_of};
ghost use Rattle.pm_forest.specs.Fronts.{no_records, with, without};
ghost use Rattle.pm_base.specs.Counts.{set_of};
ghost use Rattle.pm_forest.specs.Moves.{may_try};
ghost use Rattle.pm_beyond.specs.Moves.{IsClosed, is_at};
ghost use Rattle.pm_sets.specs.declared.set.TheConstants.{BOUND_LIMIT};
ghost use Rattle.pm_candidates.specs.Needed.{times_in, AreNeedsOf, AreRaised};
ghost use Rattle.pm_candidates.specs.Candidates.{no_candidates, is_among, is_freed, AreAnswers};
ghost use Rattle.pm_candidates.specs.Candidates.{AreCleared, AreAdded, AreCandidates};

use crate::OutOfMemory;
use crate::need_counts::NeedCounts;
use pm_base::NodeId;
use pm_forest::Hierarchy;
use pm_sets::NumberSet;
use std::alloc::Global;
use std::marker::Model;

/// The records that wait for a split, those that may be collapsed, and how often each is needed.
/// Contracts see the counts and a flag for each record of either set.
#[derive(Drop)]
pub struct Candidates {
    needs: NeedCounts,
    waiting: NumberSet,
    unneeded: NumberSet,
}

impl Model for Candidates {
    ghost use Rattle.pm_candidates.specs.Candidates.{Candidates};

    ghost Value = { Candidates };

    ghost view = { λ c. record { counts = c.needs; waiting = c.waiting; unneeded = c.unneeded } };
}

// Counts a need once more: what is counted is needed.
fn need_one(needs: &mut NeedCounts, unneeded: &mut NumberSet, need: Option<u32>)
    requires there { IfSome need (λ k. k < length needs.old) }
    requires room { IfSome need (λ k. slice_index_or needs.old k 0 + 1 < 2 ^ 32) }
    requires len { length unneeded.old ≡ length needs.old }
    ensures counts { AreRaised needs.old needs.new (need ∷ []) }
    ensures unneeded { AreCleared unneeded.old unneeded.new (is_among (need ∷ [])) }
{
    needs.raise(need);
    if let Some(k) = need {
        unneeded.remove(k);
    }
}

// Counts a need once less: what isn't counted any more is unneeded.
fn free_one(needs: &mut NeedCounts, unneeded: &mut NumberSet, need: Option<u32>)
    requires there { IfSome need (λ k. k < length needs.old) }
    requires counted { IfSome need (λ k. 0 < slice_index_or needs.old k 0) }
    requires len { length unneeded.old ≡ length needs.old }
    ensures counts { AreRaised needs.new needs.old (need ∷ []) }
    ensures unneeded { AreAdded unneeded.old unneeded.new (is_freed (need ∷ []) needs.new) }
{
    needs.lower(need);
    if let Some(k) = need {
        if needs.count(k) == 0 {
            unneeded.insert(k);
        }
    }
}

// Counts each of these needs once more.
fn need_all(needs: &mut NeedCounts, unneeded: &mut NumberSet, needed: &[Option<u32>])
    requires there { All (λ need. IfSome need (λ k. k < length needs.old)) needed.now }
    requires room { (k : ℕ) → k < length needs.old
        → slice_index_or needs.old k 0 + times_in k needed.now < 2 ^ 32 }
    requires len { length unneeded.old ≡ length needs.old }
    ensures counts { AreRaised needs.old needs.new needed.now }
    ensures unneeded { AreCleared unneeded.old unneeded.new (is_among needed.now) }
{
    for need in needed {
        need_one(needs, unneeded, *need);
    }
}

// Counts each of these needs once less.
fn free_all(needs: &mut NeedCounts, unneeded: &mut NumberSet, needed: &[Option<u32>])
    requires there { All (λ need. IfSome need (λ k. k < length needs.old)) needed.now }
    requires counted { (k : ℕ) → k < length needs.old
        → times_in k needed.now ≤ slice_index_or needs.old k 0 }
    requires len { length unneeded.old ≡ length needs.old }
    ensures counts { AreRaised needs.new needs.old needed.now }
    ensures unneeded { AreAdded unneeded.old unneeded.new (is_freed needed.now needs.new) }
{
    for need in needed {
        free_one(needs, unneeded, *need);
    }
}

// Puts the record that splits a node in, if one does.
fn add_splitter(waiting: &mut NumberSet, h: &Hierarchy, node: NodeId)
    requires node { node.0 < node_count h.now }
    requires len { length waiting.old ≡ record_count h.now }
    ensures { AreAdded waiting.old waiting.new (λ k. is_at k (splitter_of h.now node.0)) }
{
    if let Some(k) = h.splitter(node) {
        waiting.insert(k);
    }
}

// Takes the record that splits a node out, if one does.
fn clear_splitter(waiting: &mut NumberSet, h: &Hierarchy, node: NodeId)
    requires node { node.0 < node_count h.now }
    requires len { length waiting.old ≡ record_count h.now }
    ensures { AreCleared waiting.old waiting.new (λ k. is_at k (splitter_of h.now node.0)) }
{
    if let Some(k) = h.splitter(node) {
        waiting.remove(k);
    }
}

// Once record `k` is split, the records that split its children wait, and it waits no more.
fn wait_below(waiting: &mut NumberSet, h: &Hierarchy, k: u32)
    requires record { k < record_count h.now }
    requires len { length waiting.old ≡ record_count h.now }
    ensures { (T : ℕ → Bool) → IsClosed h.now T → T k ≡ false
        → AreAnswers h.now (may_try h.now T) waiting.old
        → AreAnswers h.now (may_try h.now (with T k)) waiting.new }
{
    h.invariant();
    let (t, u) = h.children(k);
    add_splitter(waiting, h, t);
    add_splitter(waiting, h, u);
    waiting.remove(k);
}

// Once record `k` is collapsed, it waits, and the records that split its children don't.
fn wait_above(waiting: &mut NumberSet, h: &Hierarchy, k: u32)
    requires record { k < record_count h.now }
    requires len { length waiting.old ≡ record_count h.now }
    ensures { (T : ℕ → Bool) → IsClosed h.now T → T k ≡ true
        → AreAnswers h.now (may_try h.now T) waiting.old
        → AreAnswers h.now (may_try h.now (without T k)) waiting.new }
{
    h.invariant();
    let (t, u) = h.children(k);
    clear_splitter(waiting, h, t);
    clear_splitter(waiting, h, u);
    waiting.insert(k);
}

// Puts the records that split a root in.
fn add_roots(waiting: &mut NumberSet, h: &Hierarchy)
    requires { waiting.old ≡ replicate (record_count h.now) false }
    ensures { AreAnswers h.now (may_try h.now no_records) waiting.new }
{
    h.invariant();
    for root in 0..h.roots() {
        add_splitter(waiting, h, NodeId(root));
    }
}

impl Candidates {
    /// Those of no record at all. The only call that takes memory.
    pub fn none(alloc: Global, records: u32) -> Result<Candidates, OutOfMemory>
        requires { records ≤ BOUND_LIMIT }
        ensures { IfOk result (λ c. c ≡ no_candidates records) }
    {
        let needs = NeedCounts::new(alloc, records)?;
        let waiting = NumberSet::new(alloc, records)?;
        let unneeded = NumberSet::new(alloc, records)?;
        Ok(Candidates {
            needs,
            waiting,
            unneeded,
        })
    }

    /// Those of the front in which no record is split: the records that split a root wait.
    /// O(roots).
    pub fn open(&mut self, h: &Hierarchy)
        requires { self.old ≡ no_candidates (record_count h.now) }
        ensures { AreCandidates h.now no_records self.new }
    {
        add_roots(&mut self.waiting, h);
    }

    /// Those after record `k`, which needs these, is split in the front of these flags. O(1).
    pub fn split(&mut self, h: &Hierarchy, flags: &[bool], needed: &[Option<u32>], k: u32)
        requires record { k < record_count h.now }
        requires needed { AreNeedsOf h.now k needed.now }
        requires unsplit { set_of flags.now k ≡ false }
        requires closed { IsClosed h.now (set_of flags.now) }
        requires candidates { AreCandidates h.now (set_of flags.now) self.old }
        ensures { AreCandidates h.now (with (set_of flags.now) k) self.new }
    {
        h.invariant();
        need_all(&mut self.needs, &mut self.unneeded, needed);
        self.unneeded.insert(k);
        wait_below(&mut self.waiting, h, k);
    }

    /// Those after record `k`, which needs these, is collapsed in the front of these flags. O(1).
    pub fn collapse(&mut self, h: &Hierarchy, flags: &[bool], needed: &[Option<u32>], k: u32)
        requires record { k < record_count h.now }
        requires needed { AreNeedsOf h.now k needed.now }
        requires is_split { set_of flags.now k ≡ true }
        requires closed { IsClosed h.now (set_of flags.now) }
        requires candidates { AreCandidates h.now (set_of flags.now) self.old }
        ensures { AreCandidates h.now (without (set_of flags.now) k) self.new }
    {
        h.invariant();
        free_all(&mut self.needs, &mut self.unneeded, needed);
        self.unneeded.remove(k);
        wait_above(&mut self.waiting, h, k);
    }

    /// How often record `k` is needed.
    pub fn count(&self, k: u32) -> u32
        requires { k < length self.now.counts }
        ensures { result ≡ slice_index_or self.now.counts k 0 }
    {
        self.needs.count(k)
    }

    /// The records that wait for a split.
    pub fn waiting(&self) -> &NumberSet
        ensures { result.now ≡ self.now.waiting }
    {
        &self.waiting
    }

    /// The split records that none needs.
    pub fn unneeded(&self) -> &NumberSet
        ensures { result.now ≡ self.now.unneeded }
    {
        &self.unneeded
    }
}

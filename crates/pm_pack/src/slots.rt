//! A table of slots, one for all questions that have one hash.
ghost use Rattle.std.specs.Prelude.{◌≡◌, IfOk};
ghost use Rattle.std.specs.Prelude.{get_or, slice_set};
ghost use Rattle.pm_coder.specs.Questions.{question};
ghost use Rattle.pm_coder.specs.Slots.{slot_share};
ghost use Rattle.pm_pack.specs.Mixing.{weights};
ghost use Rattle.pm_pack.specs.Hashes.{mixed, kind_in, detail_in, counted_detail};
ghost use Rattle.pm_pack.specs.Hashes.{slot_of, fresh_slots};
ghost use Rattle.pm_pack.specs.Hashes.{rough, hashed_place, learned_at};

use crate::OutOfMemory;
use crate::mixing::Weights;
use pm_coder::{NEW_SLOT, Predictor, slot_learned, slot_share};
use std::alloc::Global;
use std::marker::Model;

// The set of the bits of a split node's number, and the first kind of coordinates off a grid.
const NODE_BITS: u32 = 50;

const OFF_GRID: u32 = 1024;

// How many sets there are, and how their slots weigh at first.
const SETS: usize = 102;

const HALVES: Weights = Weights {
    kind: 16_384,
    detail: 16_384,
};

/// Two questions may have one slot; that costs bits and nothing else. A word with a detail has two
/// slots for each bit, of which the set has the weights.
#[derive(Drop)]
pub struct Slots {
    slots: Vec<u32>,
    weights: Vec<Weights>,
}

impl Model for Slots {
    ghost use Rattle.pm_pack.specs.Hashes.{Table};

    ghost Value = { Table };

    ghost view = { λ s. record { slots = s.slots.items; weights = s.weights.items } };
}

impl Slots {
    /// Slots that have learnt nothing. Only this call takes memory, four bytes a slot.
    #[tactic(auto, unfolding(crate::specs::Hashes::fresh_slots))]
    pub(crate) fn new(alloc: Global, size: u32) -> Result<Slots, OutOfMemory>
        ensures { IfOk result (λ s. s ≡ fresh_slots size) }
    {
        let slots = vec![in alloc; NEW_SLOT; size as usize]?;
        let weights = vec![in alloc; HALVES; SETS]?;
        Ok(Slots { slots, weights })
    }
}

impl Predictor for Slots {
    ghost use Rattle.pm_pack.specs.Hashes.{share_in, learned_in};

    ghost share = { share_in };

    ghost learned = { learned_in };

    #[tactic(auto, unfolding(crate::specs::Hashes::share_in, crate::specs::Hashes::kind_slot, crate::specs::Hashes::detail_slot))]
    fn predict(&mut self, set: u32, contexts: &[u32], place: u32) -> u16 {
        let kind = share_at(&self.slots, slot_of(set, kind_in(contexts), place));
        let detail = counted_detail(set, contexts);
        if detail == 0 {
            return kind;
        }
        let detail = share_at(&self.slots, slot_of(set, detail, place));
        weights_at(&self.weights, set as usize).share(kind, detail)
    }

    #[tactic(auto, unfolding(crate::specs::Hashes::learned_in, crate::specs::Hashes::share_in, crate::specs::Hashes::kind_slot, crate::specs::Hashes::detail_slot))]
    fn learn(&mut self, set: u32, contexts: &[u32], place: u32, bit: bool) {
        let by_kind = slot_of(set, kind_in(contexts), place);
        let detail = counted_detail(set, contexts);
        if detail != 0 {
            let by_detail = slot_of(set, detail, place);
            let (kind, detail) = (
                share_at(&self.slots, by_kind),
                share_at(&self.slots, by_detail),
            );
            let weights = weights_at(&self.weights, set as usize);
            let share = weights.share(kind, detail);
            let learned = weights.learned(kind, detail, share, bit);
            set_weights(&mut self.weights, set as usize, learned);
            learn_at(&mut self.slots, by_kind, bit);
            learn_at(&mut self.slots, by_detail, bit);
        } else {
            learn_at(&mut self.slots, by_kind, bit);
        }
    }
}

// The share of a slot.
fn share_at(slots: &[u32], i: usize) -> u16
    ensures { result ≡ slot_share (get_or slots.now i 0) }
{
    slot_share(if i < slots.len() { slots[i] } else { 0 })
}

// A slot learns a bit.
#[tactic(auto, unfolding(crate::specs::Hashes::learned_at))]
fn learn_at(slots: &mut Vec<u32>, i: usize, bit: bool)
    ensures { slots.new.items ≡ learned_at slots.old.items i bit }
{
    if i < slots.len() {
        slots[i] = slot_learned(slots[i], bit);
    }
}

// The weights of a set.
fn weights_at(all: &[Weights], set: usize) -> Weights
    ensures { result ≡ get_or all.now set (weights 16384 16384) }
{
    if set < all.len() { all[set] } else { HALVES }
}

fn set_weights(all: &mut Vec<Weights>, set: usize, learned: Weights)
    ensures { all.new.items ≡ slice_set all.old.items set learned }
{
    if set < all.len() {
        all[set] = learned;
    }
}

// The slot of a set, a context and a place.
#[tactic(auto, unfolding(crate::specs::Hashes::slot_of))]
fn slot_of(set: u32, context: u32, place: u32) -> usize
    ensures { result ≡ slot_of set context place }
{
    let hash = mixed(
        mixed(mixed(0, set), context),
        hashed_place(set, context, place),
    );
    (hash % 1_048_576) as usize
}

// A place by its six upper bits and how many follow.
#[tactic(auto, unfolding(crate::specs::Hashes::rough))]
fn rough(place: u32) -> u32
    ensures { result ≡ rough place }
{
    let below = 26u32.saturating_sub(place.leading_zeros());
    (place >> below).wrapping_add(64 * (below + 4))
}

// Bits of the number of a split node, and of a coordinate off a grid, are alike after the first
// three of them.
#[tactic(auto, unfolding(crate::specs::Hashes::hashed_place))]
fn hashed_place(set: u32, context: u32, place: u32) -> u32
    ensures { result ≡ hashed_place set context place }
{
    if (set == NODE_BITS || context >= OFF_GRID) && place > 511 {
        rough(place)
    } else {
        place
    }
}

// The first of the contexts, and the second.
fn kind_in(contexts: &[u32]) -> u32
    ensures { result ≡ kind_in contexts.now }
{
    match contexts {
        [] => 0,
        [kind, ..] => *kind,
    }
}

fn detail_in(contexts: &[u32]) -> u32
    ensures { result ≡ detail_in contexts.now }
{
    match contexts {
        [] => 0,
        [_] => 0,
        [_, detail, ..] => *detail,
    }
}

// The detail that counts: none for the bits of a number below its top one.
fn counted_detail(set: u32, contexts: &[u32]) -> u32
    ensures { result ≡ counted_detail set contexts.now }
{
    if set % 3 == 2 { 0 } else { detail_in(contexts) }
}

// A hash with one more number in it.
#[tactic(auto, unfolding(crate::specs::Hashes::mixed))]
fn mixed(hash: u32, n: u32) -> u32
    ensures { result ≡ mixed hash n }
{
    let product = hash.wrapping_add(n).wrapping_mul(2_654_435_761);
    product % 131_072 * 32_768 + product / 131_072
}

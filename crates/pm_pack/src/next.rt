//! One word after the other, by one routine for both directions.
ghost use Rattle.std.specs.Prelude.{◌≡◌, ℕ, ◌<◌, IfOk, IfErr};
ghost use Rattle.pm_coder.specs.Coders.{Coding, Makes, Can, IsWriting};
ghost use Rattle.pm_pack.specs.Texts.{nothing_seen, word_choices, known_after};

use crate::OutOfMemory;
use crate::past::Past;
use crate::word::code_guessed;
use pm_coder::{Coder, Fault, Predictor};
use std::alloc::Global;
use std::marker::Model;

/// What both sides know: what the predictor has learnt, and what was seen of the text.
#[derive(Drop)]
pub(crate) struct Known<P> {
    learnt: P,
    seen: Past,
}

impl<P> Model for Known<P> {
    ghost use Rattle.pm_pack.specs.Texts as texts;

    ghost Value = { texts.Known P };

    ghost view = { λ k. record { learnt = k.learnt; seen = k.seen } };
}

impl<P: Predictor + Drop> Known<P> {
    /// What is known before the first word.
    pub(crate) fn new(alloc: Global, learnt: P) -> Result<Known<P>, OutOfMemory>
        ensures { IfOk result (λ k. k ≡ record { learnt = learnt; seen = nothing_seen }) }
    {
        Ok(Known {
            learnt,
            seen: Past::new(alloc)?,
        })
    }

    /// The next word: who writes writes the one that is wanted, and who reads answers the one that
    /// was written, whatever is wanted. It makes at most 67 choices. `Fault::OutOfMemory` may come
    /// from either, since what was seen grows.
    #[tactic(auto, unfolding(crate::specs::Texts::word_choices, crate::specs::Texts::known_after))]
    pub(crate) fn code_next<C: Coder>(&mut self, coder: &mut C, wanted: u32) -> Result<u32, Fault>
        ensures made { IfOk result (λ w. Makes (C.coding coder.old)
            (word_choices P.Predictor self.old w) (C.coding coder.new)) }
        ensures known { IfOk result (λ w. self.new ≡ known_after P.Predictor self.old w) }
        ensures wanted { IfOk result (λ w. IsWriting (C.coding coder.old) → w ≡ wanted) }
        ensures below { IfOk result (λ w. w < 4294967296) }
        ensures cut { IfErr result (λ e. e ≡ Fault.Cut → (w : ℕ) → w < 4294967296
            → ¬ Can (C.coding coder.old) (word_choices P.Predictor self.old w)) }
    {
        let guess = self.seen.guess();
        let firsts = self.seen.firsts();
        let word = code_guessed(&mut self.learnt, coder, guess, firsts.as_slice(), wanted)?;
        let Ok(()) = self.seen.take(word) else {
            return Err(Fault::OutOfMemory);
        };
        Ok(word)
    }
}

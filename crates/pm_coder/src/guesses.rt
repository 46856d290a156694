//! Numbers of which much is known: each bit at a share that is learnt.
ghost use Rattle.std.specs.Prelude.{◌≡◌, ℕ, ◌<◌, ◌≤◌, IfOk, IfErr};
ghost use Rattle.pm_coder.specs.Coders.{Coding, Can, IsWriting};
ghost use Rattle.pm_coder.specs.Guesses.{Tells, told, halving_answers};

use crate::coder::{Coder, Fault};
use crate::predictor::{Predictor, guess};

/// A number below `bound`, by halving, as `uniform`. `place` is that of the first bit.
pub fn guess_below<P: Predictor, C: Coder>(
    predictor: &mut P,
    coder: &mut C,
    set: u32,
    contexts: &[u32],
    place: u32,
    bound: u32,
    wanted: u32,
) -> Result<u32, Fault>
    requires some { 0 < bound }
    requires wanted { IsWriting (C.coding coder.old) → wanted < bound }
    ensures ok { IfOk result (λ n. Tells P.Predictor predictor.old (C.coding coder.old)
        (halving_answers set contexts.now place bound n) predictor.new (C.coding coder.new)) }
    ensures below { IfOk result (λ n. n < bound) }
    ensures wanted { IfOk result (λ n. IsWriting (C.coding coder.old) → n ≡ wanted) }
    ensures memory { IfErr result (λ e. e ≡ Fault.OutOfMemory → IsWriting (C.coding coder.old)) }
    ensures cut { IfErr result (λ e. e ≡ Fault.Cut → (n : ℕ) → n < bound
        → ¬ Can (C.coding coder.old)
        (told P.Predictor predictor.old (halving_answers set contexts.now place bound n))) }
{
    if bound == 1 {
        return Ok(0);
    }
    let lower = bound / 2;
    let next = place % 0x4000_0000 * 2;
    if guess(predictor, coder, set, contexts, place, wanted >= lower)? {
        let above = wanted.saturating_sub(lower);
        let rest = guess_below(
            predictor,
            coder,
            set,
            contexts,
            next + 1,
            bound - lower,
            above,
        )?;
        Ok(lower + rest)
    } else {
        guess_below(predictor, coder, set, contexts, next, lower, wanted)
    }
}

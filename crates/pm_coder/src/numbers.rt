//! Numbers with no bound but their width, the smaller with fewer choices.
ghost use Rattle.std.specs.Prelude.{◌≡◌, ℕ, ◌<◌, ◌≤◌, ◌+◌, ◌-◌, ◌/◌, ◌^◌, IfOk, IfErr};
ghost use Rattle.pm_coder.specs.Coders.{Coding, Can, IsWriting};
ghost use Rattle.pm_coder.specs.Guesses.{Tells, told, rest_answers, bits_answers, number_answers};

use crate::coder::{Coder, Fault};
use crate::guesses::guess_below;
use crate::predictor::{Predictor, guess};

// The place of the greatest top bit.
const LAST: u32 = 31;

/// A number below 2^32 - 1, in sets `set` and `set + 1`: how many bits the next number has, and
/// then these bits from the top. It makes at most 62 choices.
pub fn guess_number<P: Predictor, C: Coder>(
    predictor: &mut P,
    coder: &mut C,
    set: u32,
    contexts: &[u32],
    wanted: u32,
) -> Result<u32, Fault>
    requires set { set < 4294967295 }
    requires wanted { IsWriting (C.coding coder.old) → wanted < 4294967295 }
    ensures ok { IfOk result (λ n. Tells P.Predictor predictor.old (C.coding coder.old)
        (number_answers set contexts.now n) predictor.new (C.coding coder.new)) }
    ensures below { IfOk result (λ n. n < 4294967295) }
    ensures wanted { IfOk result (λ n. IsWriting (C.coding coder.old) → n ≡ wanted) }
    ensures memory { IfErr result (λ e. e ≡ Fault.OutOfMemory → IsWriting (C.coding coder.old)) }
    ensures cut { IfErr result (λ e. e ≡ Fault.Cut → (n : ℕ) → n < 4294967295
        → ¬ Can (C.coding coder.old)
        (told P.Predictor predictor.old (number_answers set contexts.now n))) }
{
    let next = guess_bits(predictor, coder, set, contexts, 0, wanted.saturating_add(1))?;
    Ok(next - 1)
}

// A number whose top bit is at `place` or above.
fn guess_bits<P: Predictor, C: Coder>(
    predictor: &mut P,
    coder: &mut C,
    set: u32,
    contexts: &[u32],
    place: u32,
    wanted: u32,
) -> Result<u32, Fault>
    requires set { set < 4294967295 }
    requires place { place ≤ 31 }
    requires wanted { IsWriting (C.coding coder.old) → 2 ^ place ≤ wanted }
    ensures ok { IfOk result (λ n. Tells P.Predictor predictor.old (C.coding coder.old)
        (bits_answers set contexts.now (31 - place) place n) predictor.new (C.coding coder.new)) }
    ensures from { IfOk result (λ n. 2 ^ place ≤ n) }
    ensures wanted { IfOk result (λ n. IsWriting (C.coding coder.old) → n ≡ wanted) }
    ensures memory { IfErr result (λ e. e ≡ Fault.OutOfMemory → IsWriting (C.coding coder.old)) }
    ensures cut { IfErr result (λ e. e ≡ Fault.Cut → (n : ℕ) → 2 ^ place ≤ n → n < 4294967296
        → ¬ Can (C.coding coder.old)
        (told P.Predictor predictor.old (bits_answers set contexts.now (31 - place) place n))) }
{
    if place == LAST {
        return guess_rest(predictor, coder, set, contexts, place, wanted);
    }
    if guess(
        predictor,
        coder,
        set,
        contexts,
        place,
        wanted / 2 >= 1 << place,
    )? {
        guess_bits(predictor, coder, set, contexts, place + 1, wanted)
    } else {
        guess_rest(predictor, coder, set, contexts, place, wanted)
    }
}

// A number whose top bit is at `place`.
fn guess_rest<P: Predictor, C: Coder>(
    predictor: &mut P,
    coder: &mut C,
    set: u32,
    contexts: &[u32],
    place: u32,
    wanted: u32,
) -> Result<u32, Fault>
    requires set { set < 4294967295 }
    requires place { place ≤ 31 }
    requires from { IsWriting (C.coding coder.old) → 2 ^ place ≤ wanted }
    requires below { IsWriting (C.coding coder.old) → wanted / 2 < 2 ^ place }
    ensures ok { IfOk result (λ n. Tells P.Predictor predictor.old (C.coding coder.old)
        (rest_answers set contexts.now place n) predictor.new (C.coding coder.new)) }
    ensures from { IfOk result (λ n. 2 ^ place ≤ n) }
    ensures below { IfOk result (λ n. n / 2 < 2 ^ place) }
    ensures wanted { IfOk result (λ n. IsWriting (C.coding coder.old) → n ≡ wanted) }
    ensures memory { IfErr result (λ e. e ≡ Fault.OutOfMemory → IsWriting (C.coding coder.old)) }
    ensures cut { IfErr result (λ e. e ≡ Fault.Cut → (n : ℕ) → 2 ^ place ≤ n → n / 2 < 2 ^ place
        → ¬ Can (C.coding coder.old)
        (told P.Predictor predictor.old (rest_answers set contexts.now place n))) }
{
    let power = 1 << place;
    let above = wanted.saturating_sub(power);
    let rest = guess_below(
        predictor,
        coder,
        set + 1,
        contexts,
        32 + place,
        power,
        above,
    )?;
    Ok(power + rest)
}

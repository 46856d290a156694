//! Bits at shares that are learnt as they come.
ghost use Rattle.std.specs.Prelude.{◌≡◌, ◌<◌, ℕ, Bool, IfOk, IfErr};
ghost use Rattle.pm_coder.specs.Intervals.{choice};
ghost use Rattle.pm_coder.specs.Coders.{Coding, May, made, IsWriting};
ghost use Rattle.pm_coder.specs.Questions.{Question, question};

use crate::coder::{Coder, Fault};

/// What gives shares by what it has learnt. A question is a set, which says how contexts are
/// weighed, the contexts, which are numbers that say of what kind the bit is, and the bit's place
/// in its value.
pub trait Predictor {
    /// The share of `true`.
    ghost share: { Self → Question → ℕ };

    /// The predictor after a bit.
    ghost learned: { Self → Question → Bool → Self };

    /// The share of `true`, in 65,536ths.
    fn predict(&mut self, set: u32, contexts: &[u32], place: u32) -> u16
        ensures share { result ≡ share self.old (question set contexts.now place) }
        ensures same { self.new ≡ self.old };

    /// Learns what the bit was.
    fn learn(&mut self, set: u32, contexts: &[u32], place: u32, bit: bool)
        ensures { self.new ≡ learned self.old (question set contexts.now place) bit };
}

/// Makes a choice at the share that the predictor gives, which then learns it.
pub fn guess<P: Predictor, C: Coder>(
    predictor: &mut P,
    coder: &mut C,
    set: u32,
    contexts: &[u32],
    place: u32,
    wanted: bool,
) -> Result<bool, Fault>
    ensures made { IfOk result (λ bit. C.coding coder.new ≡ made (C.coding coder.old)
        (choice bit (P.share predictor.old (question set contexts.now place)))) }
    ensures may { IfOk result (λ bit. May (C.coding coder.old)
        (choice bit (P.share predictor.old (question set contexts.now place)))) }
    ensures learned { IfOk result (λ bit. predictor.new
        ≡ P.learned predictor.old (question set contexts.now place) bit) }
    ensures wanted { IfOk result (λ bit. IsWriting (C.coding coder.old) → bit ≡ wanted) }
    ensures fit { IfOk result (λ _.
        P.share predictor.old (question set contexts.now place) < 65536) }
    ensures memory { IfErr result (λ e. e ≡ Fault.OutOfMemory → IsWriting (C.coding coder.old)) }
    ensures cut { IfErr result (λ e. e ≡ Fault.Cut → (bit : Bool) → ¬ May (C.coding coder.old)
        (choice bit (P.share predictor.old (question set contexts.now place)))) }
{
    let share = predictor.predict(set, contexts, place);
    let bit = coder.choose(wanted, share)?;
    predictor.learn(set, contexts, place, bit);
    Ok(bit)
}

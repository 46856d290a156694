//! A number of which nothing is known but a bound, by halving.
ghost use Rattle.std.specs.Prelude.{◌≡◌, ℕ, ◌<◌, ◌≤◌, IfOk, IfErr};
ghost use Rattle.pm_coder.specs.Coders.{Coding, Makes, Can, IsWriting};
ghost use Rattle.pm_coder.specs.Uniform.{uniform_choices, upper_share};

use crate::coder::{Coder, Fault};

/// A number below `bound`, each as likely as another: who writes writes the one that is wanted,
/// and who reads answers the one that was written, whatever is wanted. It makes at most one choice
/// more than the bound has bits.
pub fn uniform<C: Coder>(coder: &mut C, bound: u32, wanted: u32) -> Result<u32, Fault>
    requires some { 0 < bound }
    requires wanted { IsWriting (C.coding coder.old) → wanted < bound }
    ensures ok { IfOk result (λ n.
        Makes (C.coding coder.old) (uniform_choices bound n) (C.coding coder.new)) }
    ensures below { IfOk result (λ n. n < bound) }
    ensures wanted { IfOk result (λ n. IsWriting (C.coding coder.old) → n ≡ wanted) }
    ensures cut { IfErr result (λ e. e ≡ Fault.Cut → (n : ℕ) → n < bound
        → ¬ Can (C.coding coder.old) (uniform_choices bound n)) }
    ensures memory { IfErr result (λ e. e ≡ Fault.OutOfMemory → IsWriting (C.coding coder.old)) }
{
    if bound == 1 {
        return Ok(0);
    }
    let lower = bound / 2;
    if coder.choose(wanted >= lower, upper_share(bound))? {
        let rest = uniform(coder, bound - lower, wanted.saturating_sub(lower))?;
        Ok(lower + rest)
    } else {
        uniform(coder, lower, wanted)
    }
}

/// The share of the upper half, which is the greater one where they differ.
fn upper_share(bound: u32) -> u16
    requires { 1 < bound }
    ensures { result ≡ upper_share bound }
{
    (65536 * u64::from(bound - bound / 2) / u64::from(bound)) as u16
}

//! One share by two slots: each speaks for `true` or for `false` as strongly as the logarithm of
//! its odds tells, and weighs more the more it helped (as in PAQ, Matt Mahoney).
ghost use Rattle.std.specs.Prelude.{◌≡◌, ◌≤◌, ◌^◌};
ghost use Rattle.pm_pack.specs.Mixing.{log, for_true, for_false, power, weighed, lead, share_by};
ghost use Rattle.pm_pack.specs.Mixing.{mixed_share, weight_after, weight_learned};
ghost use Rattle.pm_pack.specs.Mixing.{weights_learned};

/// How much a slot weighs by the kind of a word, and how much the one by its detail, in 32,768ths.
#[derive(Clone, Copy)]
pub(crate) struct Weights {
    pub(crate) kind: u16,
    pub(crate) detail: u16,
}

impl Weights {
    /// The share of two shares together.
    #[tactic(auto, unfolding(crate::specs::Mixing::mixed_share))]
    pub(crate) fn share(self, kind: u16, detail: u16) -> u16
        ensures { result ≡ mixed_share self kind detail }
    {
        let (kind, detail) = (strength_of(kind), strength_of(detail));
        let truth = self.weighed(kind.truth, detail.truth);
        let falsity = self.weighed(kind.falsity, detail.falsity);
        share_by(lead(truth, falsity), lead(falsity, truth))
    }

    fn weighed(self, kind: u16, detail: u16) -> u64
        ensures { result ≡ weighed self kind detail }
    {
        let by_kind = u32::from(self.kind) * u32::from(kind);
        let by_detail = u32::from(self.detail) * u32::from(detail);
        u64::from(by_kind) + u64::from(by_detail)
    }

    /// The weights after a bit of which `share` was that of both.
    #[tactic(auto, unfolding(crate::specs::Mixing::weights_learned))]
    pub(crate) fn learned(self, kind: u16, detail: u16, share: u16, bit: bool) -> Weights
        ensures { result ≡ weights_learned self kind detail share bit }
    {
        let share = u32::from(share);
        let missed = if bit { 65_536 - share } else { share };
        Weights {
            kind: weight_learned(self.kind, kind, missed, bit),
            detail: weight_learned(self.detail, detail, missed, bit),
        }
    }
}

// The logarithm to base 2 in 1,024ths, straight between powers of 2.
#[tactic(auto, unfolding(crate::specs::Mixing::log))]
fn log(n: u32) -> u16
    requires { n ≤ 65536 }
    ensures { result ≡ log n }
{
    let top = 31u32.saturating_sub(n.leading_zeros());
    (1024 * top + (n * 1024 >> top) % 1024) as u16
}

// How strongly a slot speaks for `true`, and how strongly for `false`: one of them is 0.
#[derive(Clone, Copy)]
struct Strength {
    truth: u16,
    falsity: u16,
}

#[tactic(auto, unfolding(crate::specs::Mixing::for_true, crate::specs::Mixing::for_false))]
fn strength_of(share: u16) -> Strength
    ensures truth { result.truth ≡ for_true share }
    ensures falsity { result.falsity ≡ for_false share }
{
    let truth = log(u32::from(share));
    let falsity = log(65_536 - u32::from(share));
    Strength {
        truth: truth.saturating_sub(falsity),
        falsity: falsity.saturating_sub(truth),
    }
}

// 1,024 times the number with this logarithm.
#[tactic(auto, unfolding(crate::specs::Mixing::power), using(crate::proofs::MixingLaws::part_power))]
fn power(n: u32) -> u64
    requires { n ≤ 16383 }
    ensures value { result ≡ power n }
    ensures most { result ≤ 67076096 }
{
    u64::from(1024 + n % 1024) * u64::from(two_to(n / 1024))
}

#[tactic(auto, using(crate::proofs::MixingLaws::two_few, pm_coder::proofs::NumberLaws::power_shifted))]
fn two_to(n: u32) -> u32
    requires { n ≤ 15 }
    ensures value { result ≡ 2 ^ n }
    ensures most { result ≤ 32768 }
{
    1 << n
}

// How far one sum of weighed strengths is above another.
fn lead(a: u64, b: u64) -> u32
    ensures value { result ≡ lead a b }
    ensures most { result ≤ 16383 }
{
    (a.saturating_sub(b) / 32_768).min(16_383) as u32
}

// The share of which the odds are those of two powers.
#[tactic(auto, unfolding(crate::specs::Mixing::share_by))]
fn share_by(a: u32, b: u32) -> u16
    requires left { a ≤ 16383 }
    requires right { b ≤ 16383 }
    ensures { result ≡ share_by a b }
{
    let (above, below) = (power(a), power(b));
    (65_536 * above / (above + below + 1)).min(65_535).max(1) as u16
}

// A weight after a bit, by how strongly its slot spoke for it and against it.
#[tactic(auto, unfolding(crate::specs::Mixing::weight_after))]
fn weight_after(weight: u16, right: u16, wrong: u16, missed: u32) -> u16
    ensures { result ≡ weight_after weight right wrong missed }
{
    let up = u64::from(right) * u64::from(missed) / 524_288;
    let down = u64::from(wrong) * u64::from(missed) / 524_288;
    (u64::from(weight) + up).min(65_535).saturating_sub(down) as u16
}

// A weight after a bit, by the share of its slot.
#[tactic(auto, unfolding(crate::specs::Mixing::weight_learned))]
fn weight_learned(weight: u16, share: u16, missed: u32, bit: bool) -> u16
    ensures { result ≡ weight_learned weight share missed bit }
{
    let strength = strength_of(share);
    if bit {
        weight_after(weight, strength.truth, strength.falsity, missed)
    } else {
        weight_after(weight, strength.falsity, strength.truth, missed)
    }
}

//! Whether a front is as fine as the marked one.
ghost use Rattle.std.specs.Prelude.{◌≡◌, length};
ghost use Rattle.pm_forest.specs.Forest.{record_count};
ghost use Rattle.pm_base.specs.Counts.{set_of};
ghost use Rattle.pm_morph.specs.Elders.{unsplit_of};

use pm_front::Front;

/// The least marked record that isn't split.
#[tactic(auto, using(crate::proofs::LeastLaws::least_here, crate::proofs::LeastLaws::least_on), unfolding(crate::specs::Elders::unsplit_of))]
pub(crate) fn first_unsplit(front: &Front, marks: &[bool]) -> Option<u32>
    requires { length marks.now ≡ record_count front.now.h }
    ensures { result ≡ unsplit_of front.now.h (set_of marks.now) (set_of front.now.flags) }
{
    for k in 0..front.hierarchy().records() {
        if marks[k as usize] && !front.is_split(k) {
            return Some(k);
        }
    }
    None
}

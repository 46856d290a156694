//! Numbers from 1 that were used, as one flag for each.
ghost use Rattle.std.specs.Prelude.{false, ◌≡◌, ◌+◌, ◌≤◌, length, [], ◌∷◌, ◌++◌, List, ℕ, IfOk};
ghost use Rattle.pm_base.specs.declared.limits.TheConstants.{MOST_FACES};
ghost use Rattle.pm_forest.specs.Marks.{AreMarked};
ghost use Rattle.pm_forest.specs.Rules.{vertex_input_is_bad, face_input_is_bad};

use crate::OutOfMemory;
use std::alloc::Global;

// Flags for the numbers from 1 to `most`, none of which was used.
pub fn unmarked(alloc: Global, most: u32) -> Result<Vec<bool>, OutOfMemory>
    ensures len { IfOk result (λ v. length v.items ≡ most) }
    ensures none { IfOk result (λ v. AreMarked v.items []) }
{
    vec![in alloc; false; most as usize]
}

#[tactic(auto, unfolding(crate::specs::Rules::vertex_input_is_bad))]
pub fn is_vertex_input_bad(flags: &[bool], width: u32, input: u32) -> bool
    ensures within { result ≡ false → input ≤ length flags.now }
    ensures exact { (used : List ℕ) → AreMarked flags.now used
        → result ≡ vertex_input_is_bad (length flags.now) used width input }
{
    if width == 1 {
        input == 0 || input as usize > flags.len() || flags[input as usize - 1]
    } else {
        input != 0
    }
}

// The same where one number more was used just before.
#[tactic(auto, unfolding(crate::specs::Rules::vertex_input_is_bad))]
pub fn is_second_input_bad(flags: &[bool], first: u32, width: u32, input: u32) -> bool
    ensures within { result ≡ false → input ≤ length flags.now }
    ensures exact { (used : List ℕ) → AreMarked flags.now used
        → result ≡ vertex_input_is_bad (length flags.now) (used ++ first ∷ []) width input }
{
    is_vertex_input_bad(flags, width, input) || width == 1 && first == input
}

#[tactic(auto, unfolding(crate::specs::Rules::face_input_is_bad))]
pub fn is_face_input_bad(flags: &[bool], input: u32) -> bool
    requires { length flags.now ≡ MOST_FACES }
    ensures within { result ≡ false → input ≤ length flags.now }
    ensures exact { (used : List ℕ) → AreMarked flags.now used
        → result ≡ face_input_is_bad used input }
{
    input == 0 || input as usize > flags.len() || flags[input as usize - 1]
}

// The number is used from now on. 0 is none.
pub fn mark(flags: &mut Vec<bool>, number: u32)
    requires { number ≤ length flags.old.items }
    ensures len { length flags.new.items ≡ length flags.old.items }
    ensures marked { (used : List ℕ) → AreMarked flags.old.items used
        → AreMarked flags.new.items (used ++ number ∷ []) }
{
    if number > 0 {
        flags[number as usize - 1] = true;
    }
}

//! Different numbers below a bound, which can be walked in ascending order, and how many they are.
ghost use Rattle.std.specs.Prelude.{◌≡◌, ℕ, ◌-◌, ◌<◌, ◌≤◌, ◌∷◌, ◌++◌, [], true, false, filter};
ghost use Rattle.std.specs.Prelude.{length, IfOk, IfSome, IfNone};
ghost use Rattle.std.specs.List.{range_with_len};
ghost use Rattle.pm_links.specs.Lists.{has, list_without, first_of, after, IsOnce};
ghost use Rattle.pm_links.specs.declared.links.TheConstants.{LIMIT};
ghost use Rattle.pm_front.specs.Corners.{is_not_between};
ghost use Rattle.pm_front.specs.Members.{AreSameNumbers};
ghost use Rattle.pm_front.specs.Shown.{NonePasses, IsLeastFrom};

use crate::OutOfMemory;
use pm_sets::NumberSet;
use std::alloc::Global;
use std::marker::Model;

/// Contracts see the bound and the ascending list. `insert`, `remove`, `has` and `len` take O(1)
/// time; a walk over all takes time linear in them and in a 4,096th of the bound.
#[derive(Drop)]
pub(crate) struct Members {
    numbers: NumberSet,
    count: u32,
}

impl Model for Members {
    ghost use Rattle.std.specs.Prelude.{length};
    ghost use Rattle.pm_front.specs.Members.{Members, AreMembers, members_of};

    ghost Value = { Members };

    ghost view = { λ m. record { bound = length m.numbers; list = members_of m.numbers } };

    ghost invariant = { λ m. AreMembers m.numbers m.count };
}

impl Members {
    /// None of the numbers below `bound`. The only call that takes memory.
    pub(crate) fn new(alloc: Global, bound: u32) -> Result<Members, OutOfMemory>
        requires { bound ≤ LIMIT }
        ensures { IfOk result (λ m. m ≡ record { bound = bound; list = [] }) }
    {
        let numbers = NumberSet::new(alloc, bound)?;
        Ok(Members { numbers, count: 0 })
    }

    /// Puts a number in.
    pub(crate) fn insert(&mut self, number: u32)
        requires below { number < self.old.bound }
        requires absent { has self.old.list number ≡ false }
        ensures bound { self.new.bound ≡ self.old.bound }
        ensures list { AreSameNumbers self.new.list (number ∷ self.old.list) }
    {
        self.numbers.insert(number);
        self.count += 1;
    }

    /// Takes a number out.
    pub(crate) fn remove(&mut self, number: u32)
        requires { has self.old.list number ≡ true }
        ensures bound { self.new.bound ≡ self.old.bound }
        ensures list { AreSameNumbers self.new.list (list_without number self.old.list) }
    {
        self.numbers.remove(number);
        self.count -= 1;
    }

    /// Whether it has a number.
    pub(crate) fn has(&self, number: u32) -> bool
        requires { number < self.now.bound }
        ensures { result ≡ has self.now.list number }
    {
        self.numbers.has(number)
    }

    /// How many they are.
    pub(crate) fn len(&self) -> u32
        ensures { result ≡ length self.now.list }
    {
        self.count
    }

    /// The first one, if there is one.
    pub(crate) fn first(&self) -> Option<u32>
        ensures { result ≡ first_of self.now.list }
    {
        self.numbers.first_from(0)
    }

    /// The one after this one, if there is one.
    pub(crate) fn next(&self, number: u32) -> Option<u32>
        requires { has self.now.list number ≡ true }
        ensures { result ≡ first_of (after number self.now.list) }
    {
        self.numbers.first_from(number + 1)
    }

    /// The least one that is at least `from`, if there is one.
    pub(crate) fn first_from(&self, from: u32) -> Option<u32>
        requires { from ≤ self.now.bound }
        ensures some { IfSome result (IsLeastFrom (has self.now.list) from) }
        ensures below { IfSome result (λ k. k < self.now.bound) }
        ensures none { IfNone result (NonePasses (has self.now.list) from self.now.bound) }
    {
        self.numbers.first_from(from)
    }
}

/// Puts the numbers from `from` to before `until` in.
pub(crate) fn put_in(members: &mut Members, from: u32, until: u32)
    requires ordered { from ≤ until }
    requires below { until ≤ members.old.bound }
    requires absent { (x : ℕ) → from ≤ x → x < until → has members.old.list x ≡ false }
    requires once { IsOnce members.old.list }
    ensures bound { members.new.bound ≡ members.old.bound }
    ensures list { AreSameNumbers members.new.list
        (range_with_len from (until - from) ++ members.old.list) }
{
    for number in from..until {
        members.insert(number);
    }
}

/// Takes the numbers from `from` to before `until` out.
pub(crate) fn take_out(members: &mut Members, from: u32, until: u32)
    requires ordered { from ≤ until }
    requires there { (x : ℕ) → from ≤ x → x < until → has members.old.list x ≡ true }
    requires once { IsOnce members.old.list }
    ensures bound { members.new.bound ≡ members.old.bound }
    ensures list { AreSameNumbers members.new.list
        (filter (is_not_between from until) members.old.list) }
{
    for number in from..until {
        members.remove(number);
    }
}

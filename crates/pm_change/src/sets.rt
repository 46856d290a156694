//! The numbers of a change, as sets.
ghost use Rattle.std.specs.Prelude.{◌≡◌, ◌+◌, ◌*◌, ◌≤◌, length, IfOk};
ghost use Rattle.pm_base.specs.Counts.{count, set_of};
ghost use Rattle.pm_sets.specs.Sets.{IsEmptySet};
ghost use Rattle.pm_forest.specs.Forest.{Hierarchy, record_count};
ghost use Rattle.pm_beyond.specs.Plans.{differs};
ghost use Rattle.pm_morph.specs.Marks.{AreMarksOf};
ghost use Rattle.pm_change.specs.Changes.{new_nodes};
ghost use Rattle.pm_change.specs.Laws.{new_corners};
ghost use Rattle.pm_change.specs.Gathering.{AreEmptySets, AreSetsOf, HaveRoomFor, size_of};
ghost use Rattle.pm_change.specs.Gathering.{sizes_of};

use crate::OutOfMemory;
use crate::corners::gather_puts;
use crate::gathering::gather_gone_and_new;
use pm_forest::Hierarchy;
use pm_front::Front;
use pm_sets::NumberSet;
use pm_view::Steps;
use std::alloc::Global;
use std::sync::ledger::Ledger;

/// The faces and nodes that are gone, the nodes that are new, and the faces that are put.
#[derive(Drop)]
pub(crate) struct ChangeSets {
    pub(crate) gone_faces: NumberSet,
    pub(crate) gone_nodes: NumberSet,
    pub(crate) new_nodes: NumberSet,
    pub(crate) put_faces: NumberSet,
}

// Takes all numbers out of a set.
fn clear<L: Ledger>(set: &mut NumberSet, steps: &mut Steps<L>)
    ensures len { length set.new ≡ length set.old }
    ensures empty { IsEmptySet set.new }
    ensures cost { steps.new ≤ steps.old + size_of set.old }
{
    while let Some(_number) = set.take_first() {
        steps.tick();
    }
}

impl ChangeSets {
    /// Empty sets for the faces and the nodes of a hierarchy. The only call that takes memory.
    pub(crate) fn new(alloc: Global, h: &Hierarchy) -> Result<ChangeSets, OutOfMemory>
        ensures room { IfOk result (HaveRoomFor h.now) }
        ensures empty { IfOk result AreEmptySets }
    {
        h.invariant();
        let gone_faces = NumberSet::new(alloc, h.faces())?;
        let gone_nodes = NumberSet::new(alloc, h.nodes())?;
        let new_nodes = NumberSet::new(alloc, h.nodes())?;
        let put_faces = NumberSet::new(alloc, h.faces())?;
        Ok(ChangeSets {
            gone_faces,
            gone_nodes,
            new_nodes,
            put_faces,
        })
    }

    /// Puts the numbers of the change from the marked front in empty sets.
    pub(crate) fn gather<L: Ledger>(&mut self, front: &Front, marks: &[bool], steps: &mut Steps<L>)
        requires marks { AreMarksOf front.now.h marks.now }
        requires room { HaveRoomFor front.now.h self.old }
        requires empty { AreEmptySets self.old }
        ensures sets { AreSetsOf front.now.h (set_of marks.now) (set_of front.now.flags) self.new }
        ensures cost { let h = front.now.h in
            let S = set_of marks.now in let G = set_of front.now.flags in
            steps.new ≤ steps.old + record_count h + 26 * count (differs S G) (record_count h)
            + length (new_nodes h S G) + length (new_corners h S G) }
    {
        gather_gone_and_new(front, marks, self, steps);
        gather_puts(front, &self.new_nodes, &mut self.put_faces, steps);
    }

    /// Takes all numbers out.
    pub(crate) fn clear<L: Ledger>(&mut self, steps: &mut Steps<L>)
        ensures room { (h : Hierarchy) → HaveRoomFor h self.old → HaveRoomFor h self.new }
        ensures empty { AreEmptySets self.new }
        ensures cost { steps.new ≤ steps.old + sizes_of self.old }
    {
        clear(&mut self.gone_faces, steps);
        clear(&mut self.gone_nodes, steps);
        clear(&mut self.new_nodes, steps);
        clear(&mut self.put_faces, steps);
    }
}

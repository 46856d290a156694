//! Takes a hierarchy in unit by unit, and refuses the first unit that breaks a rule of shape.
ghost use Rattle.std.specs.Prelude.{true, false, ◌≡◌, ◌+◌, ◌⊎◌, ◌↔◌, [], ◌∷◌, ◌++◌, None};
ghost use Rattle.std.specs.Prelude.{Some, OnOk, OnErr, IfOk, IfErr, IfSome};
ghost use Rattle.pm_forest.specs.declared.parts.Counts.{Counts};
ghost use Rattle.pm_forest.specs.declared.parts.UnitKind.TheVariants as kinds;
ghost use Rattle.pm_forest.specs.Rules.{counts_are_bad, root_fault, base_fault, head_fault};
ghost use Rattle.pm_forest.specs.Rules.{new_face_fault, past_fault};
ghost use Rattle.pm_forest.specs.Shaping.{expects, nothing_in, next_root, next_face, started};
ghost use Rattle.pm_forest.specs.Shaping.{settled, with_face, so_far, HasBegun};

use crate::face_faults::{neighbour, new_face_fault, past_fault};
use crate::faults::{are_counts_bad, base_fault, next_record, next_root};
use crate::growing::Growing;
use crate::hierarchy::Hierarchy;
use crate::marks::{mark, unmarked};
use crate::{Counts, Face, Head, NewFace, OutOfMemory, Shape, UnitKind};
use pm_base::MOST_FACES;
use std::alloc::Global;
use std::marker::Model;

/// A hierarchy that is being taken in. Contracts see its counts, the whole units that were taken
/// in, and the record whose faces are coming.
#[derive(Drop)]
pub struct Shaper {
    forest: Growing,
    left_due: bool,
    right_due: bool,
    vertices_seen: Vec<bool>,
    faces_seen: Vec<bool>,
}

impl Model for Shaper {
    ghost use Rattle.std.specs.Option.{option_map};
    ghost use Rattle.pm_forest.specs.Shaping.{Shaping, IsShaping, unfinished};

    ghost Value = { Shaping };

    ghost view = { λ s. record {
      counts = s.forest.counts;
      h = s.forest.h;
      coming = option_map (unfinished s.left_due s.right_due) s.forest.coming;
    } };

    ghost invariant = { λ s. IsShaping s.forest s.left_due s.right_due s.vertices_seen.items
        s.faces_seen.items };
}

// All the tables of a shaper, with nothing taken in.
fn new_shaper(alloc: Global, counts: Counts) -> Result<Shaper, OutOfMemory>
    requires { counts_are_bad counts ≡ false }
    ensures { IfOk result (λ s. s ≡ nothing_in counts) }
{
    let vertices_seen = unmarked(alloc, counts.leaves)?;
    let faces_seen = unmarked(alloc, MOST_FACES)?;
    let forest = Growing::new(alloc, counts)?;
    Ok(Shaper {
        forest,
        left_due: false,
        right_due: false,
        vertices_seen,
        faces_seen,
    })
}

impl Shaper {
    /// A shaper for a hierarchy with these counts. It takes all memory that they can ask for, and
    /// no other call takes any. BadCount comes exactly where the counts break their rule.
    pub fn new(
        alloc: Global,
        leaves: u32,
        roots: u32,
        bases: u32,
        records: u32,
    ) -> Result<Shaper, Shape>
        ensures ok { let c : Counts = record {
          leaves = leaves;
          roots = roots;
          bases = bases;
          records = records;
        } in
            IfOk result (λ s. (counts_are_bad c ≡ false) × (s ≡ nothing_in c)) }
        ensures err { let c : Counts = record {
          leaves = leaves;
          roots = roots;
          bases = bases;
          records = records;
        } in
            IfErr result (λ e. ((e ≡ Shape.OutOfMemory) × (counts_are_bad c ≡ false))
            ⊎ ((e ≡ Shape.BadCount) × (counts_are_bad c ≡ true))) }
    {
        let counts = Counts {
            leaves,
            roots,
            bases,
            records,
        };
        if are_counts_bad(counts) {
            return Err(Shape::BadCount);
        }
        match new_shaper(alloc, counts) {
            Ok(shaper) => Ok(shaper),
            Err(_) => Err(Shape::OutOfMemory),
        }
    }

    /// What kind of unit comes next.
    pub fn expects(&self) -> UnitKind
        ensures { result ≡ expects self.now }
    {
        let counts = self.forest.counts();
        if self.left_due {
            UnitKind::LeftFace
        } else if self.right_due {
            UnitKind::RightFace
        } else if self.forest.roots().len() < counts.roots as usize {
            UnitKind::Root
        } else if self.forest.bases().len() < counts.bases as usize {
            UnitKind::Base
        } else if self.forest.records().len() < counts.records as usize {
            UnitKind::Head
        } else {
            UnitKind::Nothing
        }
    }

    /// What was taken in, once all roots and base faces were.
    pub fn begun(&self) -> Option<&Growing>
        ensures none { (result ≡ None)
            ↔ ((expects self.now ≡ kinds.Root) ⊎ (expects self.now ≡ kinds.Base)) }
        ensures units { IfSome result (λ forest. forest.now.h ≡ self.now.h) }
        ensures begun { IfSome result (λ forest. HasBegun forest.now.counts self.now.h) }
    {
        match self.expects() {
            UnitKind::Root | UnitKind::Base => None,
            UnitKind::Head | UnitKind::LeftFace | UnitKind::RightFace | UnitKind::Nothing => {
                Some(&self.forest)
            }
        }
    }

    /// Takes the next root in. It is refused exactly where it has a fault, and the shaper is then
    /// as before.
    pub fn add_root(&mut self, r: [i32; 3], width: u32, input: u32) -> Result<(), Shape>
        requires { expects self.old ≡ kinds.Root }
        ensures ok { OnOk result
            (root_fault self.old.counts self.old.h.roots (next_root r width input) ≡ None) }
        ensures fault { IfErr result
            (λ e. root_fault self.old.counts self.old.h.roots (next_root r width input) ≡ Some e) }
        ensures taken { OnOk result
            (self.new ≡ record self.old {
              h = record self.old.h { roots = self.old.h.roots ++ next_root r width input ∷ [] };
            }) }
        ensures refused { OnErr result (self.new ≡ self.old) }
    {
        match next_root(&self.forest, &self.vertices_seen, r, width, input) {
            Err(fault) => Err(fault),
            Ok(root) => {
                mark(&mut self.vertices_seen, root.input);
                self.forest.add_root(root);
                Ok(())
            }
        }
    }

    /// Takes the next base face in. It is refused exactly where it has a fault, and the shaper is
    /// then as before.
    pub fn add_base(&mut self, f: Face) -> Result<(), Shape>
        requires { expects self.old ≡ kinds.Base }
        ensures ok { OnOk result (base_fault self.old.h.roots self.old.h.bases f ≡ None) }
        ensures fault { IfErr result (λ e. base_fault self.old.h.roots self.old.h.bases f
            ≡ Some e) }
        ensures taken { OnOk result
            (self.new ≡ record self.old
            { h = record self.old.h { bases = self.old.h.bases ++ f ∷ [] } }) }
        ensures refused { OnErr result (self.new ≡ self.old) }
    {
        if let Some(fault) = base_fault(&self.forest, &self.faces_seen, &f) {
            return Err(fault);
        }
        mark(&mut self.faces_seen, f.input);
        self.forest.add_base(f);
        Ok(())
    }

    /// Takes the head of the next record in; its faces come next. It is refused exactly where it
    /// has a fault, and the shaper is then as before.
    pub fn add_head(&mut self, head: Head) -> Result<(), Shape>
        requires { expects self.old ≡ kinds.Head }
        ensures ok { OnOk result (head_fault self.old.h head ≡ None) }
        ensures fault { IfErr result (λ e. head_fault self.old.h head ≡ Some e) }
        ensures taken { OnOk result (self.new ≡ record self.old { coming = Some (started head) }) }
        ensures refused { OnErr result (self.new ≡ self.old) }
    {
        match next_record(&self.forest, &self.vertices_seen, &head) {
            Err(fault) => Err(fault),
            Ok(split) => {
                mark(&mut self.vertices_seen, split.t.input);
                mark(&mut self.vertices_seen, split.u.input);
                self.forest.add_record(split);
                self.left_due = head.presence != 2;
                self.right_due = head.presence != 1;
                Ok(())
            }
        }
    }

    /// Takes the next face of the coming record in, with the words that name its neighbours. It is
    /// refused exactly where it has a fault, and the shaper is then as before.
    pub fn add_face(&mut self, f: Face, first: u32, second: u32) -> Result<(), Shape>
        requires { (expects self.old ≡ kinds.LeftFace) ⊎ (expects self.old ≡ kinds.RightFace) }
        ensures ok { IfSome self.old.coming
            (λ p. OnOk result
            (new_face_fault (so_far self.old.h self.old.coming) p.left_due f first second ≡ None)) }
        ensures fault { IfSome self.old.coming
            (λ p. IfErr result
            (λ e. new_face_fault (so_far self.old.h self.old.coming) p.left_due f first second
            ≡ Some e)) }
        ensures taken { IfSome self.old.coming
            (λ p. OnOk result
            (self.new ≡ settled self.old.counts self.old.h
            (with_face p (next_face f first second)))) }
        ensures refused { OnErr result (self.new ≡ self.old) }
    {
        let left = self.left_due;
        if let Some(fault) = new_face_fault(
            &self.forest,
            &self.faces_seen,
            left,
            &f,
            first,
            second,
        ) {
            return Err(fault);
        }
        mark(&mut self.faces_seen, f.input);
        let face = NewFace {
            face: f,
            first: neighbour(first),
            second: neighbour(second),
        };
        self.forest.add_face(left, face);
        // After the left face the right one may still be due, and after the right one none is.
        self.left_due = false;
        self.right_due = self.right_due && left;
        if !self.right_due {
            self.forest.settle();
        }
        Ok(())
    }

    /// The hierarchy of all units. BadInput comes exactly where the input number of a face passes
    /// the number of faces, and names the first such field; there is no other refusal.
    pub fn done(self) -> Result<Hierarchy, Shape>
        requires { expects self ≡ kinds.Nothing }
        ensures ok { OnOk result (past_fault self.h ≡ None) }
        ensures fault { IfErr result (λ e. past_fault self.h ≡ Some e) }
        ensures whole { IfOk result (λ h. h ≡ self.h) }
    {
        let Shaper { forest, .. } = self;
        match past_fault(&forest) {
            Some(fault) => Err(fault),
            None => Ok(Hierarchy::new(forest)),
        }
    }
}

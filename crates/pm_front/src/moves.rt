//! The moves of a front.
ghost use Rattle.std.specs.Prelude.{◌≡◌, ◌<◌, ◌↔◌, Some, None, IsOk, IfErr, OnOk, OnErr};
ghost use Rattle.std.specs.Prelude.{MatchResult};
ghost use Rattle.pm_forest.specs.Forest.{record_count};
ghost use Rattle.pm_forest.specs.Fronts.{with, without};
ghost use Rattle.pm_base.specs.Counts.{set_of};
ghost use Rattle.pm_beyond.specs.Moves.{MaySplit, MayCollapse, split_fault, collapse_fault};
ghost use Rattle.pm_beyond.specs.declared.moves.MoveFault.TheVariants as faults;
ghost use Rattle.pm_firm.specs.Firm.{IsSurfaceShown, IsFirm};
ghost use Rattle.pm_front.specs.Answers.{IsUnneeded, IsOfLater};
ghost use Rattle.pm_front.specs.Corners.{split_lists, collapsed_lists};

use crate::{Front, MoveFault};
use pm_base::FaceId;

impl Front {
    /// Splits record `k` where that is legal: its node is active, it isn't split, and each recorded
    /// neighbour is kept. `Blocked` names the first one that isn't, in the order left first, left
    /// second, right first, right second.
    pub fn split(&mut self, k: u32) -> Result<(), MoveFault>
        requires { k < record_count self.old.h }
        ensures answer { let fault = split_fault self.old.h (set_of self.old.flags) k in
            MatchResult result (λ _. fault ≡ None) (λ e. fault ≡ Some e) }
        ensures legal { IsOk result ↔ MaySplit self.old.h (set_of self.old.flags) k }
        ensures hierarchy { self.new.h ≡ self.old.h }
        ensures surface { IsFirm self.old.h → IsSurfaceShown self.new.h (set_of self.new.flags) }
        ensures done { OnOk result (set_of self.new.flags ≡ with (set_of self.old.flags) k) }
        ensures corners { OnOk result
            (self.new.corners ≡ split_lists self.old.h (set_of self.old.flags) k self.old.corners) }
        ensures refused { OnErr result (self.new ≡ self.old) }
    {
        match self.tables.split_fault(k) {
            Some(fault) => Err(fault),
            None => {
                self.split_legal(k);
                Ok(())
            }
        }
    }

    /// Splits record `k`, which may be split: `split` without the test.
    pub fn split_legal(&mut self, k: u32)
        requires record { k < record_count self.old.h }
        requires legal { MaySplit self.old.h (set_of self.old.flags) k }
        ensures hierarchy { self.new.h ≡ self.old.h }
        ensures surface { IsFirm self.old.h → IsSurfaceShown self.new.h (set_of self.new.flags) }
        ensures done { set_of self.new.flags ≡ with (set_of self.old.flags) k }
        ensures corners { self.new.corners ≡ split_lists self.old.h (set_of self.old.flags) k
            self.old.corners }
    {
        let needed = self.needed.of(k);
        let tables = &self.tables;
        self.candidates
            .split(tables.hierarchy(), tables.flags(), &needed, k);
        self.tables.split(k);
    }

    /// Collapses record `k` where that is legal: it is split, both children are active, and beyond
    /// each outer side of its faces stands exactly the recorded neighbour. `Blocked` names the face
    /// that stands beyond the first side where something else does, in the same order. That is a
    /// face of a greater split record. In a front a split record may be collapsed exactly where no
    /// split record needs it.
    pub fn collapse(&mut self, k: u32) -> Result<(), MoveFault>
        requires { k < record_count self.old.h }
        ensures answer { let fault = collapse_fault self.old.h (set_of self.old.flags) k in
            MatchResult result (λ _. fault ≡ None) (λ e. fault ≡ Some e) }
        ensures legal { IsOk result ↔ MayCollapse self.old.h (set_of self.old.flags) k }
        ensures unneeded { IsOk result ↔ IsUnneeded self.old.h (set_of self.old.flags) k }
        ensures blocked { IfErr result (λ e. (f : FaceId) → e ≡ faults.Blocked f
            → IsOfLater self.old.h (set_of self.old.flags) k f.0) }
        ensures hierarchy { self.new.h ≡ self.old.h }
        ensures surface { IsFirm self.old.h → IsSurfaceShown self.new.h (set_of self.new.flags) }
        ensures done { OnOk result (set_of self.new.flags ≡ without (set_of self.old.flags) k) }
        ensures corners { OnOk result
            (self.new.corners ≡ collapsed_lists self.old.h k self.old.corners) }
        ensures refused { OnErr result (self.new ≡ self.old) }
    {
        match self.tables.collapse_fault(k) {
            Some(fault) => Err(fault),
            None => {
                self.collapse_legal(k);
                Ok(())
            }
        }
    }

    /// Collapses record `k`, which may be collapsed: `collapse` without the test.
    pub fn collapse_legal(&mut self, k: u32)
        requires record { k < record_count self.old.h }
        requires legal { MayCollapse self.old.h (set_of self.old.flags) k }
        ensures hierarchy { self.new.h ≡ self.old.h }
        ensures surface { IsFirm self.old.h → IsSurfaceShown self.new.h (set_of self.new.flags) }
        ensures done { set_of self.new.flags ≡ without (set_of self.old.flags) k }
        ensures corners { self.new.corners ≡ collapsed_lists self.old.h k self.old.corners }
    {
        let needed = self.needed.of(k);
        let tables = &self.tables;
        self.candidates
            .collapse(tables.hierarchy(), tables.flags(), &needed, k);
        self.tables.collapse(k);
    }
}

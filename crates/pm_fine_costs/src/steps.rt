//! The run by the fine policy in steps, so that who waits for it is told how far it is.
ghost use Rattle.std.specs.Prelude.{◌≡◌, ◌↔◌, [], true, false, IfOk};
ghost use Rattle.pm_base.specs.Meshes.{mesh_of};
ghost use Rattle.pm_runs.specs.Runs.{IsStartOfRun, IsRun};
ghost use Rattle.pm_policies.specs.PolicyRuns.{IsEndBy, IsRunBy};
ghost use Rattle.pm_fine_costs.specs.Steps.{GoesOnTo, IsProgressOf, policy_of};

use crate::FineTable;
use crate::table::OutOfMemory;
use pm_base::{Log, Mesh};
use pm_simplify::Run;
use pm_twins::Surface;
use std::alloc::Global;
use std::marker::Model;

/// How far a run is.
#[derive(Clone, Copy, Debug, PartialEq, Eq)]
pub struct Progress {
    /// How many faces the mesh had at first.
    pub faces: u64,
    /// How many are left.
    pub faces_left: u64,
    /// How many collapses were done.
    pub collapses: u64,
    /// Whether this is known to be the end.
    pub ended: bool,
}

/// The run of a mesh by the fine policy that stands still between two steps. Contracts see the
/// mesh, the flags of the vertices that are kept, the target, the log so far, and whether the run
/// is known to be at its end. Letting it go gives the run up.
#[derive(Drop)]
pub struct FineRun {
    mesh: Mesh,
    run: Run<FineTable>,
    ended: bool,
}

impl Model for FineRun {
    ghost use Rattle.pm_base.specs.Meshes.{mesh_of};
    ghost use Rattle.pm_fine_costs.specs.Steps.{Stepwise};
    ghost use Rattle.pm_fine_costs.specs.Going.{IsGoingOn};

    ghost Value = { Stepwise };

    ghost view = { λ r. record {
      mesh = mesh_of r.mesh;
      kept = r.run.kept.items;
      target = r.run.target_faces;
      log = r.run.log.items;
      ended = r.ended;
    } };

    ghost invariant = { λ r. IsGoingOn r.run r.ended (mesh_of r.mesh) };
}

impl FineRun {
    /// The run of a surface to so many faces, before its first collapse. The only call that takes
    /// memory. The vertices whose flags are set are kept, as `simplify_fine` says it.
    pub fn begin(
        alloc: Global,
        surface: Surface,
        kept: Vec<bool>,
        target_faces: u32,
    ) -> Result<FineRun, OutOfMemory>
        ensures { IfOk result (λ run. run ≡ record {
          mesh = surface;
          kept = kept.items;
          target = target_faces;
          log = [];
          ended = false;
        }) }
    {
        let mesh = surface.mesh().copy(alloc)?;
        let costs = FineTable::new(alloc, &surface)?;
        let run = Run::begin(alloc, surface, costs, kept, target_faces)?;
        Ok(FineRun {
            mesh,
            run,
            ended: false,
        })
    }

    /// Goes on by at most so many collapses, or to the end, which is where no more faces than the
    /// target are left or no pair may be collapsed. At the end nothing is done.
    pub fn go_on(&mut self, most: u32)
        ensures goes_on { GoesOnTo most self.old self.new }
        ensures end { (self.new.ended ≡ true)
            ↔ IsEndBy (policy_of self.new) self.new.mesh self.new.target self.new.log }
        ensures rests { self.old.ended ≡ true → self.new ≡ self.old }
    {
        if !self.ended {
            self.ended = self.run.go_on(most);
        }
    }

    /// How far the run is.
    pub fn progress(&self) -> Progress
        ensures { IsProgressOf self.now result }
    {
        Progress {
            faces: self.mesh.faces.len() as u64,
            faces_left: u64::from(self.run.face_count()),
            collapses: self.run.collapses() as u64,
            ended: self.ended,
        }
    }

    /// The number of faces to which the run goes.
    pub fn target(&self) -> u32
        ensures { result ≡ self.now.target }
    {
        self.run.target()
    }

    /// The mesh at first, and the log of the collapses that were done. At the end it is the log
    /// that `simplify_fine` gives.
    pub fn into_parts(self) -> (Mesh, Log)
        ensures mesh { mesh_of result.0 ≡ self.mesh }
        ensures log { result.1.items ≡ self.log }
        ensures start { IsStartOfRun self.mesh }
        ensures run { IsRun self.mesh self.log }
        ensures end { self.ended ≡ true → IsRunBy (policy_of self) self.mesh self.target self.log }
    {
        (self.mesh, self.run.into_log())
    }
}

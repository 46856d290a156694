//! The hierarchy of a log, made in one go.
ghost use Rattle.std.specs.Prelude.{◌≡◌, IfOk};
ghost use Rattle.pm_base.specs.Meshes.{mesh_of};
ghost use Rattle.pm_forest.specs.Meshes.{input_mesh_of};
ghost use Rattle.pm_runs.specs.Runs.{IsStartOfRun, IsRun};
ghost use Rattle.pm_beyond.specs.Valid.{IsValid};
ghost use Rattle.pm_firm.specs.Firm.{IsFirm};
ghost use Rattle.pm_number.specs.Numbering.{hierarchy_of_run};

use crate::OutOfMemory;
use crate::feed::hierarchy;
use crate::run::Run;
use pm_base::{Log, Mesh};
use pm_forest::Hierarchy;
use std::alloc::Global;

/// The hierarchy of the run that the log tells of the mesh. It is valid, and its input mesh is the
/// mesh. It takes linear time and memory.
pub fn from_log(alloc: Global, mesh: &Mesh, log: &Log) -> Result<Hierarchy, OutOfMemory>
    requires start { IsStartOfRun (mesh_of mesh.now) }
    requires run { IsRun (mesh_of mesh.now) log.now.items }
    ensures hierarchy { IfOk result (λ h. h ≡ hierarchy_of_run (mesh_of mesh.now) log.now.items) }
    ensures valid { IfOk result IsValid }
    ensures firm { IfOk result IsFirm }
    ensures mesh { IfOk result (λ h. input_mesh_of h ≡ mesh_of mesh.now) }
{
    let run = Run {
        mesh,
        log: log.as_slice(),
    };
    let numbers = run.numbers(alloc)?;
    hierarchy(alloc, &numbers)
}

//! A run of collapses in steps, so that who waits for it is told how far it is.
ghost use Rattle.std.specs.Prelude.{◌≡◌, ◌↔◌, [], true, length, IfOk};
ghost use Rattle.pm_base.specs.Meshes.{Mesh as PlainMesh};
ghost use Rattle.pm_runs.specs.Surfaces.{face_count_of};
ghost use Rattle.pm_keeping.specs.Keeping.{kept_in};
ghost use Rattle.pm_policies.specs.Policies.{Policy};
ghost use Rattle.pm_policies.specs.PolicyRuns.{IsEndBy};
ghost use Rattle.pm_simplify.specs.Going.{IsGoing, AddsUpTo};

use crate::choose::least_pair;
use crate::edges::Edges;
use crate::run::OutOfMemory;
use crate::step::collapse;
use pm_base::Log;
use pm_costs::Costs;
use pm_shrink::Shrink;
use pm_twins::Surface;
use std::alloc::Global;

/// A run of collapses that stands still between two steps: the mesh as it is by now, and the log of
/// the collapses that led to it. Letting it go gives the run up.
#[derive(Drop)]
pub struct Run<C> {
    shrink: Shrink,
    costs: C,
    kept: Vec<bool>,
    edges: Edges,
    log: Log,
    target_faces: u32,
}

impl<C: Costs + Drop> Run<C> {
    /// The run before its first collapse, by the policy of the costs, which are those of the
    /// surface, and of the flags of the vertices that are kept. No later call takes memory.
    pub fn begin(
        alloc: Global,
        surface: Surface,
        costs: C,
        kept: Vec<bool>,
        target_faces: u32,
    ) -> Result<Run<C>, OutOfMemory>
        requires known { (p : Policy) × C.goes_by costs p surface []
            × (p.kept ≡ kept_in kept.items) }
        ensures begun { IfOk result (λ run. (p : Policy) → C.goes_by costs p surface []
            → p.kept ≡ kept_in kept.items
            → IsGoing run.shrink (C.goes_by run.costs) run.kept.items run.edges run.log
            run.target_faces p surface) }
        ensures kept { IfOk result (λ run. run.kept.items ≡ kept.items) }
        ensures target { IfOk result (λ run. run.target_faces ≡ target_faces) }
        ensures log { IfOk result (λ run. run.log.items ≡ []) }
    {
        let (mesh, twins) = surface.into_parts();
        let points = mesh.points.len();
        let faces = mesh.faces.len() as u32;
        let mut log = Log::new(alloc);
        // Each collapse takes a vertex away, and the last one stays.
        log.reserve(points.saturating_sub(1))?;
        let shrink = Shrink::new(alloc, mesh, twins)?;
        let edges = Edges::of(alloc, &shrink, &costs, &kept, faces, points)?;
        Ok(Run {
            shrink,
            costs,
            kept,
            edges,
            log,
            target_faces,
        })
    }

    /// Goes on by at most so many collapses, and answers whether that is the end of the run: no
    /// more faces than the target are left, or no pair may be collapsed. At the end nothing is
    /// done.
    pub fn go_on(&mut self, most: u32) -> bool
        requires known { (p : Policy) × (m : PlainMesh)
            × IsGoing self.old.shrink (C.goes_by self.old.costs) self.old.kept.items self.old.edges
            self.old.log self.old.target_faces p m }
        ensures goes_on { (p : Policy) (m : PlainMesh)
            → IsGoing self.old.shrink (C.goes_by self.old.costs) self.old.kept.items self.old.edges
            self.old.log self.old.target_faces p m
            → IsGoing self.new.shrink (C.goes_by self.new.costs) self.new.kept.items self.new.edges
            self.new.log self.new.target_faces p m }
        ensures end { (p : Policy) (m : PlainMesh)
            → IsGoing self.old.shrink (C.goes_by self.old.costs) self.old.kept.items self.old.edges
            self.old.log self.old.target_faces p m
            → (result ≡ true) ↔ IsEndBy p m self.old.target_faces self.new.log.items }
        ensures adds { AddsUpTo most result self.old.log.items self.new.log.items }
        ensures kept { self.new.kept ≡ self.old.kept }
        ensures target { self.new.target_faces ≡ self.old.target_faces }
    {
        let mut left = most;
        while self.shrink.face_count() > self.target_faces {
            let Some(pair) = least_pair(
                &self.shrink,
                &self.costs,
                &mut self.edges.queue,
                &mut self.edges.waiting,
                &mut self.edges.awaited,
            ) else {
                return true;
            };
            if left == 0 {
                return false;
            }
            left -= 1;
            let entry = collapse(
                &mut self.shrink,
                &mut self.costs,
                &self.kept,
                &mut self.edges,
                pair,
            );
            self.log.push_within_room(entry);
        }
        true
    }

    /// How many faces are left.
    pub fn face_count(&self) -> u32
        ensures { result ≡ face_count_of self.now.shrink.surface }
    {
        self.shrink.face_count()
    }

    /// How many collapses were done.
    pub fn collapses(&self) -> usize
        ensures { result ≡ length self.now.log.items }
    {
        self.log.len()
    }

    /// The number of faces to which the run goes.
    pub fn target(&self) -> u32
        ensures { result ≡ self.now.target_faces }
    {
        self.target_faces
    }

    /// The log of the collapses that were done.
    pub fn into_log(self) -> Log
        ensures { result ≡ self.log }
    {
        self.log
    }
}

//! The hierarchy of a grid and what adapts its fronts. All memory of a summary is taken here.
ghost use Rattle.std.specs.Prelude.{◌≡◌, ◌≤◌, ◌<◌, length, IfOk};
ghost use Rattle.pm_base.specs.Meshes.{mesh_of, IsWellFormed};
ghost use Rattle.pm_io.specs.Puts.{Puts};
ghost use Rattle.pm_forest.specs.Fronts.{no_records};
ghost use Rattle.pm_base.specs.Counts.{set_of};
ghost use Rattle.pm_beyond.specs.Valid.{IsValid};
ghost use Rattle.pm_runs.specs.Runs.{IsRunTo};
ghost use Rattle.pm_refine.specs.Adapting.{view_target, view_plan};
ghost use Rattle.pm_demo.specs.Scene.{AreSceneTools};
ghost use Rattle.pm_demo.specs.Summary.{IsOfGrid, view_line};

use crate::OutOfMemory;
use crate::lines::put_settled;
use pm_base::{Log, Mesh};
use pm_beyond::plans_are_sound;
use pm_deviation::Measures;
use pm_forest::Hierarchy;
use pm_front::Front;
use pm_grid::{grid, grids_are_sound};
use pm_io::{Line, Sink, WriteFault, put_all};
use pm_load::{LoadFail, open_front};
use pm_number::from_log;
use pm_refine::{Adapted, Refiner};
use pm_simplify::simplify;
use pm_view::{Measure, Steps, View};
use std::alloc::{AllocError, Global};
use std::marker::{Brand, Model};
use std::sync::ledger::{Blank, Ledger};

/// A hierarchy that is looked at. Contracts see it and which of its records are split.
#[derive(Drop)]
pub struct Scene {
    front: Front,
    measures: Measures,
    refiner: Refiner,
}

impl Model for Scene {
    ghost use Rattle.pm_demo.specs.Scene.{SceneShown, AreSceneTools};

    ghost Value = { SceneShown };

    ghost view = { λ s. record { h = s.front.h; flags = s.front.flags } };

    ghost invariant = { λ s. AreSceneTools s.front.h s.measures s.refiner };
}

// The run of a mesh, as far as pairs may be collapsed.
fn run_of(alloc: Global, mesh: &Mesh) -> Result<Log, OutOfMemory>
    requires { IsWellFormed (mesh_of mesh.now) }
    ensures { IfOk result (λ log. IsRunTo (mesh_of mesh.now) 0 log.items) }
{
    // A grid is an oriented manifold, so it is refused for want of memory alone.
    match simplify(alloc, mesh, 0) {
        Ok(log) => Ok(log),
        Err(_) => Err(AllocError),
    }
}

// The hierarchy of a grid that is simplified as far as pairs may be collapsed.
fn simplified_grid(alloc: Global, n: u32) -> Result<Hierarchy, OutOfMemory>
    requires some { 1 ≤ n }
    requires most { n ≤ 256 }
    ensures of_grid { IfOk result (IsOfGrid n) }
    ensures valid { IfOk result IsValid }
{
    grids_are_sound();
    let mesh = grid(alloc, n)?;
    let log = run_of(alloc, &mesh)?;
    from_log(alloc, &mesh, &log)
}

// Adapts a front to a view by errors, with a budget of the number of records, and answers how many
// moves that took.
#[tactic(auto, using(pm_view::proofs::Serving::serves_errors))]
fn settle<L: Ledger>(
    refiner: &mut Refiner,
    front: &mut Front,
    measures: &Measures,
    view: &View,
    blank: Blank,
) -> u32
    requires tools { AreSceneTools front.old.h measures.now refiner.old }
    requires by_error { view.now.measure ≡ Measure.Error }
    requires name { blank.name ≡ L.name }
    requires parts { blank.parts ≡ L.parts }
    requires some { 0 < L.parts }
    ensures moves { result ≡ length (view_plan front.old.h (set_of front.old.flags) view.now) }
    ensures after { set_of front.new.flags ≡ view_target front.old.h view.now }
    ensures hierarchy { front.new.h ≡ front.old.h }
    ensures tools { AreSceneTools front.new.h measures.now refiner.new }
{
    plans_are_sound();
    let budget = front.hierarchy().records();
    let mut steps: Steps<L> = Steps::new(blank);
    match refiner.adapt(front, measures, view, budget, &mut steps) {
        Adapted::Settled { moves } => moves,
        // A plan has at most as many moves as there are records.
        Adapted::Spent { .. } => unreachable!(),
    }
}

// The base front of the simplified grid of n times n cells.
fn base_front(alloc: Global, n: u32) -> Result<Front, OutOfMemory>
    requires some { 1 ≤ n }
    requires most { n ≤ 256 }
    ensures of_grid { IfOk result (λ front. IsOfGrid n front.h) }
    ensures base { IfOk result (λ front. set_of front.flags ≡ no_records) }
{
    let h = simplified_grid(alloc, n)?;
    match open_front(alloc, h) {
        Ok(front) => Ok(front),
        Err(LoadFail::OutOfMemory) => Err(AllocError),
        // The hierarchy of a run is valid.
        Err(LoadFail::EdgeTwice(_)) => unreachable!(),
        Err(LoadFail::BadNeighbour(_)) => unreachable!(),
    }
}

impl Scene {
    /// The base front of the simplified grid of n times n cells, n from 1 to 256.
    pub fn open(alloc: Global, n: u32) -> Result<Scene, OutOfMemory>
        requires some { 1 ≤ n }
        requires most { n ≤ 256 }
        ensures of_grid { IfOk result (λ s. IsOfGrid n s.h) }
        ensures base { IfOk result (λ s. set_of s.flags ≡ no_records) }
    {
        let front = base_front(alloc, n)?;
        let measures = Measures::of(alloc, front.hierarchy())?;
        let refiner = Refiner::new(alloc, front.hierarchy())?;
        Ok(Scene {
            front,
            measures,
            refiner,
        })
    }

    /// The hierarchy.
    pub fn hierarchy(&self) -> &Hierarchy
        ensures { result.now ≡ self.now.h }
    {
        self.front.hierarchy()
    }

    // Adapts the front to a view, and answers how many moves that took.
    fn look(&mut self, view: &View) -> u32
        requires by_error { view.now.measure ≡ Measure.Error }
        ensures moves { result ≡ length (view_plan self.old.h (set_of self.old.flags) view.now) }
        ensures after { set_of self.new.flags ≡ view_target self.old.h view.now }
        ensures hierarchy { self.new.h ≡ self.old.h }
    {
        settle::<Brand>(
            &mut self.refiner,
            &mut self.front,
            &self.measures,
            view,
            Blank::new(1),
        )
    }

    /// Adapts the front to a view by errors with the number i, and puts the line of that.
    #[tactic(auto, unfolding(crate::specs::Summary::view_line))]
    pub fn show<K: Sink>(&mut self, i: u32, view: &View, out: &mut K) -> Result<(), WriteFault>
        requires by_error { view.now.measure ≡ Measure.Error }
        ensures after { set_of self.new.flags ≡ view_target self.old.h view.now }
        ensures hierarchy { self.new.h ≡ self.old.h }
        ensures puts { let text = view_line self.old.h (set_of self.old.flags) i view.now in
            Puts K.Sink out.old out.new text result }
    {
        let moves = self.look(view);
        let mut line = Line::new();
        put_settled(
            &mut line,
            i,
            moves,
            self.front.active_count(),
            self.front.kept_count(),
        );
        put_all(out, line.as_slice())
    }
}

//! What a session works with beside its front.
ghost use Rattle.std.specs.Prelude.{◌≡◌, ◌*◌, ◌<◌, ◌≤◌, true, length, IfOk, IfErr, OnOk, OnErr};
ghost use Rattle.pm_base.specs.declared.limits.TheConstants.{MOST_FACES, MOST_NODES, MOST_SIDES};
ghost use Rattle.pm_io.specs.Puts.{Puts};
ghost use Rattle.pm_forest.specs.Forest.{record_count};
ghost use Rattle.pm_forest.specs.Faces.{face_count};
ghost use Rattle.pm_base.specs.Counts.{set_of};
ghost use Rattle.pm_front.specs.Shown.{active_nodes, kept_faces};
ghost use Rattle.pm_base.specs.Sides.{NoSideTwice};
ghost use Rattle.pm_beyond.specs.Walks.{leaf_net};
ghost use Rattle.pm_deviation.specs.Deviations.{AreMeasuresOf, has_deviations};
ghost use Rattle.pm_view.specs.declared.measure.Measure.TheVariants as judges;
ghost use Rattle.pm_view.specs.Wanted.{Serves};
ghost use Rattle.pm_manifold.specs.Measure.{nodes_shown, edges_shown, faces_shown, loops_shown};
ghost use Rattle.pm_pick.specs.Picks.{pick_of};
ghost use Rattle.pm_pick.specs.Lists.{AreListsOf};
ghost use Rattle.pm_strips.specs.Shown.{strips_text};
ghost use Rattle.pm_morph.specs.Marks.{AreMarksOf};
ghost use Rattle.pm_change.specs.Texts.{change_text};
ghost use Rattle.pm_change.specs.Changes.{change_of};
ghost use Rattle.pm_change.specs.Room.{room_of};
ghost use Rattle.pm_change.specs.Arrays.{sizes_of_change, ChangeFits, BeginWith, LeavesBehind};
ghost use Rattle.pm_session.specs.Script.{adapted_to, after_view};
ghost use Rattle.pm_session.specs.Level.{split_count, greatest_error, greatest_deviation};
ghost use Rattle.pm_session.specs.Session.{AreToolsOf, HasItsMeasures};

use crate::grammar::Grammar;
use crate::level::{Level, level_of};
use crate::picking::pick_face;
use pm_change::{ChangeSizes, Changer};
use pm_deviation::Measures;
use pm_forest::Hierarchy;
use pm_front::Front;
use pm_io::{Sink, WriteFault};
use pm_manifold::{Measure, Tracer};
use pm_pick::{Hit, Picker, Ray};
use pm_refine::{Adapted, Refiner};
use pm_strips::Stripper;
use pm_view::{Steps, View};
use std::alloc::{AllocError, Global};
use std::marker::{Brand, Model};
use std::sync::ledger::{Blank, Ledger};

/// The tools of a session: the measures of the nodes, what adapts fronts to views, and what reads
/// fronts. `new` takes all the memory that they want.
#[derive(Drop)]
pub(crate) struct Tools {
    measures: Measures,
    refiner: Refiner,
    readers: Readers,
}

impl Model for Tools {
    ghost use Rattle.pm_session.specs.Session.{Toolbox};

    ghost Value = { Toolbox };

    ghost view = { λ t. record {
      measures = t.measures;
      room = t.refiner;
      marks = t.readers.tracer;
      lists = t.readers.picker;
      flags = t.readers.stripper;
      sets = t.readers.changer;
    } };
}

// What reads the mesh that a front shows.
#[derive(Drop)]
struct Readers {
    tracer: Tracer,
    picker: Picker,
    stripper: Stripper,
    changer: Changer,
}

impl Readers {
    // Those for a hierarchy.
    fn new(alloc: Global, h: &Hierarchy) -> Result<Readers, AllocError>
        ensures marks { IfOk result (λ r. r.tracer ≡ 3 * face_count h.now) }
        ensures lists { IfOk result (λ r. AreListsOf h.now r.picker) }
        ensures flags { IfOk result (λ r. r.stripper ≡ face_count h.now) }
        ensures sets { IfOk result (λ r. r.changer ≡ room_of h.now) }
    {
        let tracer = Tracer::new(alloc, h)?;
        let picker = Picker::new(alloc, h)?;
        let stripper = Stripper::new(alloc, h)?;
        let changer = Changer::new(alloc, h)?;
        Ok(Readers {
            tracer,
            picker,
            stripper,
            changer,
        })
    }
}

// What views of a script of this grammar are judged by: a script of `view` has none by deviation.
fn measures_for(alloc: Global, h: &Hierarchy, grammar: Grammar) -> Result<Measures, AllocError>
    requires { NoSideTwice (leaf_net h.now) }
    ensures are { IfOk result (AreMeasuresOf h.now) }
    ensures serve { IfOk result (HasItsMeasures grammar) }
{
    match grammar {
        Grammar::View => Measures::of(alloc, h),
        Grammar::Live => Measures::with_deviations(alloc, h),
    }
}

// Adapts a front to a view, where nobody counts the steps.
#[tactic(auto, unfolding(crate::specs::Script::adapted_to, crate::specs::Script::after_view))]
fn adapt<L: Ledger>(
    refiner: &mut Refiner,
    front: &mut Front,
    measures: &Measures,
    view: &View,
    budget: u32,
    blank: Blank,
) -> Adapted
    requires measures { Serves front.old.h view.now measures.now }
    requires room { refiner.old ≡ record_count front.old.h }
    requires name { blank.name ≡ L.name }
    requires parts { blank.parts ≡ L.parts }
    requires some { 0 < L.parts }
    ensures answer { result ≡ adapted_to front.old.h budget (set_of front.old.flags) view.now }
    ensures after { set_of front.new.flags ≡ after_view front.old.h budget (set_of front.old.flags)
        view.now }
    ensures hierarchy { front.new.h ≡ front.old.h }
    ensures same { refiner.new ≡ refiner.old }
{
    let mut steps: Steps<L> = Steps::new(blank);
    refiner.adapt(front, measures, view, budget, &mut steps)
}

impl Tools {
    /// The tools for a hierarchy and a script of this grammar.
    pub(crate) fn new(alloc: Global, h: &Hierarchy, grammar: Grammar) -> Result<Tools, AllocError>
        requires { NoSideTwice (leaf_net h.now) }
        ensures are { IfOk result (AreToolsOf h.now) }
        ensures serve { IfOk result (λ tools. HasItsMeasures grammar tools.measures) }
    {
        let measures = measures_for(alloc, h, grammar)?;
        let refiner = Refiner::new(alloc, h)?;
        let readers = Readers::new(alloc, h)?;
        Ok(Tools {
            measures,
            refiner,
            readers,
        })
    }

    /// Adapts a front to a view, in at most `budget` moves.
    pub(crate) fn adapt(&mut self, front: &mut Front, view: &View, budget: u32) -> Adapted
        requires tools { AreToolsOf front.old.h self.old }
        requires enough { view.now.measure ≡ judges.Deviation
            → has_deviations self.old.measures ≡ true }
        ensures answer { result ≡ adapted_to front.old.h budget (set_of front.old.flags) view.now }
        ensures after { set_of front.new.flags
            ≡ after_view front.old.h budget (set_of front.old.flags) view.now }
        ensures hierarchy { front.new.h ≡ front.old.h }
        ensures same { self.new ≡ self.old }
    {
        adapt::<Brand>(
            &mut self.refiner,
            front,
            &self.measures,
            view,
            budget,
            Blank::new(1),
        )
    }

    /// The face of the input that a ray hits first.
    pub(crate) fn pick(&self, h: &Hierarchy, ray: &Ray) -> Option<Hit>
        requires { AreToolsOf h.now self.now }
        ensures { result ≡ pick_of h.now ray.now }
    {
        pick_face::<Brand>(
            &self.readers.picker,
            h,
            self.measures.bounds(),
            ray,
            Blank::new(1),
        )
    }

    /// The nodes, edges, faces and border loops of the mesh that a front shows.
    pub(crate) fn measure(&mut self, front: &Front) -> Measure
        requires { AreToolsOf front.now.h self.old }
        ensures nodes { result.nodes ≡ nodes_shown front.now.h (set_of front.now.flags) }
        ensures edges { result.edges ≡ edges_shown front.now.h (set_of front.now.flags) }
        ensures faces { result.faces ≡ faces_shown front.now.h (set_of front.now.flags) }
        ensures loops { result.loops ≡ loops_shown front.now.h (set_of front.now.flags) }
        ensures few { (result.nodes ≤ MOST_NODES) × (result.edges ≤ MOST_SIDES)
            × (result.faces ≤ MOST_FACES) }
        ensures same { self.new ≡ self.old }
    {
        self.readers.tracer.measure(front)
    }

    /// The level of detail that a front shows.
    pub(crate) fn level(&self, front: &Front) -> Level
        requires tools { AreToolsOf front.now.h self.now }
        requires there { has_deviations self.now.measures ≡ true }
        ensures nodes { result.nodes ≡ length (active_nodes front.now.h (set_of front.now.flags)) }
        ensures faces { result.faces ≡ length (kept_faces front.now.h (set_of front.now.flags)) }
        ensures split { result.split ≡ split_count front.now.h (set_of front.now.flags) }
        ensures error { result.error ≡ greatest_error front.now.h (set_of front.now.flags) }
        ensures deviation { result.deviation
            ≡ greatest_deviation front.now.h (set_of front.now.flags) }
    {
        level_of(front, &self.measures)
    }

    /// Writes the mesh that a front shows as triangle strips.
    pub(crate) fn write_strips<K: Sink>(
        &mut self,
        front: &Front,
        out: &mut K,
    ) -> Result<(), WriteFault>
        requires { AreToolsOf front.now.h self.old }
        ensures puts { Puts K.Sink out.old out.new
            (strips_text front.now.h (set_of front.now.flags)) result }
        ensures same { self.new ≡ self.old }
    {
        self.readers.stripper.write_strips(front, out)
    }

    /// Writes what changed since a marked front.
    pub(crate) fn write_change<K: Sink>(
        &mut self,
        front: &Front,
        marks: &[bool],
        out: &mut K,
    ) -> Result<(), WriteFault>
        requires tools { AreToolsOf front.now.h self.old }
        requires marks { AreMarksOf front.now.h marks.now }
        ensures puts { let text =
            change_text front.now.h (set_of marks.now) (set_of front.now.flags) in
            Puts K.Sink out.old out.new text result }
        ensures same { self.new ≡ self.old }
    {
        self.readers.changer.write(front, marks, out)
    }

    /// Writes the same change to the front of the arrays, where it fits.
    pub(crate) fn store_change(
        &mut self,
        front: &Front,
        marks: &[bool],
        gone_faces: &mut [u32],
        gone_nodes: &mut [u32],
        new_nodes: &mut [u32],
        new_places: &mut [i32],
        put_faces: &mut [u32],
        put_corners: &mut [u32],
    ) -> Result<ChangeSizes, ChangeSizes>
        requires tools { AreToolsOf front.now.h self.old }
        requires marks { AreMarksOf front.now.h marks.now }
        ensures fits { let c = change_of front.now.h (set_of marks.now) (set_of front.now.flags) in
            OnOk result (ChangeFits (sizes_of_change c) (length gone_faces.old)
            (length gone_nodes.old) (length new_nodes.old) (length new_places.old)
            (length put_faces.old) (length put_corners.old)) }
        ensures refused { let c = change_of front.now.h (set_of marks.now)
            (set_of front.now.flags) in
            OnErr result (ChangeFits (sizes_of_change c) (length gone_faces.old)
            (length gone_nodes.old) (length new_nodes.old) (length new_places.old)
            (length put_faces.old) (length put_corners.old) → ⊥) }
        ensures sizes { let c = change_of front.now.h (set_of marks.now) (set_of front.now.flags) in
            IfOk result (λ s. s ≡ sizes_of_change c) }
        ensures wanted { let c = change_of front.now.h (set_of marks.now)
            (set_of front.now.flags) in
            IfErr result (λ s. s ≡ sizes_of_change c) }
        ensures arrays { let c = change_of front.now.h (set_of marks.now)
            (set_of front.now.flags) in
            OnOk result (BeginWith c gone_faces.new gone_nodes.new new_nodes.new new_places.new
            put_faces.new put_corners.new) }
        ensures behind { OnOk result (LeavesBehind
            (change_of front.now.h (set_of marks.now) (set_of front.now.flags)) gone_faces.old
            gone_nodes.old new_nodes.old new_places.old put_faces.old put_corners.old gone_faces.new
            gone_nodes.new new_nodes.new new_places.new put_faces.new put_corners.new) }
        ensures unwritten { OnErr result ((gone_faces.new ≡ gone_faces.old)
            × (gone_nodes.new ≡ gone_nodes.old) × (new_nodes.new ≡ new_nodes.old)
            × (new_places.new ≡ new_places.old) × (put_faces.new ≡ put_faces.old)
            × (put_corners.new ≡ put_corners.old)) }
        ensures same { self.new ≡ self.old }
    {
        self.readers.changer.store(
            front,
            marks,
            gone_faces,
            gone_nodes,
            new_nodes,
            new_places,
            put_faces,
            put_corners,
        )
    }
}

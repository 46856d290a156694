//! Counting nodes, edges, faces and border loops of the mesh shown.
ghost use Rattle.std.specs.Prelude.{◌≡◌, ◌+◌, ◌*◌, ◌<◌, ◌≤◌, ◌↔◌, ◌⊎◌, ℕ, true, false, length};
ghost use Rattle.std.specs.Prelude.{IfOk};
ghost use Rattle.pm_base.specs.declared.limits.TheConstants.{MOST_FACES, MOST_NODES, MOST_SIDES};
ghost use Rattle.pm_base.specs.Counts.{set_of};
ghost use Rattle.pm_forest.specs.Faces.{face_count};
ghost use Rattle.pm_manifold.specs.Measure.{nodes_shown, edges_shown, faces_shown, border_sides};
ghost use Rattle.pm_manifold.specs.Measure.{loops_shown};
ghost use Rattle.pm_manifold.specs.Tracing.{IsBorderSideIn, IsInLoop};

use crate::OutOfMemory;
use crate::sides::{is_border, next_border};
use pm_base::Side;
use pm_forest::Hierarchy;
use pm_front::Front;
use std::alloc::Global;
use std::marker::Model;

/// How many nodes, edges, faces and border loops the mesh shown has. The Euler number is nodes
/// minus edges plus faces.
#[derive(Clone, Copy, Debug, PartialEq, Eq)]
pub struct Measure {
    pub nodes: u32,
    pub edges: u32,
    pub faces: u32,
    pub loops: u32,
}

/// Measures the fronts of one hierarchy. It has a mark for each side, and contracts see how many.
#[derive(Drop)]
pub struct Tracer {
    marks: Vec<bool>,
}

impl Model for Tracer {
    ghost use Rattle.std.specs.Prelude.{ℕ, length};

    ghost Value = { ℕ };

    ghost view = { λ t. length t.marks.items };
}

impl Tracer {
    /// A tracer for the fronts of a hierarchy. All memory is taken here.
    pub fn new(alloc: Global, h: &Hierarchy) -> Result<Tracer, OutOfMemory>
        ensures { IfOk result (λ t. t ≡ 3 * face_count h.now) }
    {
        h.invariant();
        let sides = 3 * h.faces() as usize;
        Ok(Tracer {
            marks: vec![in alloc; false; sides]?,
        })
    }

    /// The measure of the mesh that the front shows. The front is one of the tracer's hierarchy.
    /// Each side is looked at, and turned over once more where it is at a border node; no memory.
    pub fn measure(&mut self, front: &Front) -> Measure
        requires { self.old ≡ 3 * face_count front.now.h }
        ensures nodes { result.nodes ≡ nodes_shown front.now.h (set_of front.now.flags) }
        ensures edges { result.edges ≡ edges_shown front.now.h (set_of front.now.flags) }
        ensures faces { result.faces ≡ faces_shown front.now.h (set_of front.now.flags) }
        ensures loops { result.loops ≡ loops_shown front.now.h (set_of front.now.flags) }
        ensures few { (result.nodes ≤ MOST_NODES) × (result.edges ≤ MOST_SIDES)
            × (result.faces ≤ MOST_FACES) }
        ensures same { self.new ≡ self.old }
    {
        front.invariant();
        front.hierarchy().invariant();
        let nodes = front.active_count();
        let faces = front.kept_count();
        let borders = count_borders(front);
        let loops = count_loops(&mut self.marks, front);
        Measure {
            nodes,
            edges: borders + (3 * faces - borders) / 2,
            faces,
            loops,
        }
    }
}

fn count_borders(front: &Front) -> u32
    ensures { result ≡ border_sides front.now.h (set_of front.now.flags) }
{
    front.hierarchy().invariant();
    let mut borders = 0u32;
    for side in 0..3 * front.hierarchy().faces() {
        if is_border(front, Side(side)) {
            borders += 1;
        }
    }
    borders
}

// No mark is set.
fn clear(marks: &mut Vec<bool>)
    ensures len { length marks.new.items ≡ length marks.old.items }
    ensures clear { (i : ℕ) → set_of marks.new.items i ≡ false }
{
    for i in 0..marks.len() {
        marks[i] = false;
    }
}

// Marks the sides of a loop.
fn mark_loop(marks: &mut Vec<bool>, front: &Front, first: Side)
    requires len { length marks.old.items ≡ 3 * face_count front.now.h }
    requires border { IsBorderSideIn front.now.h (set_of front.now.flags) first.0 }
    ensures len { length marks.new.items ≡ length marks.old.items }
    ensures marked { (i : ℕ) → (set_of marks.new.items i ≡ true)
        ↔ ((set_of marks.old.items i ≡ true)
        ⊎ IsInLoop front.now.h (set_of front.now.flags) first.0 i) }
{
    front.invariant();
    let mut at = first;
    for _turn in 0..marks.len() {
        marks[at.0 as usize] = true;
        at = next_border(front, at);
        if at.0 == first.0 {
            return;
        }
    }
}

// A loop begins at each border side that no loop of a lesser one has.
fn count_loops(marks: &mut Vec<bool>, front: &Front) -> u32
    requires { length marks.old.items ≡ 3 * face_count front.now.h }
    ensures loops { result ≡ loops_shown front.now.h (set_of front.now.flags) }
    ensures len { length marks.new.items ≡ length marks.old.items }
{
    clear(marks);
    front.invariant();
    front.hierarchy().invariant();
    let mut loops = 0u32;
    for side in 0..3 * front.hierarchy().faces() {
        if is_border(front, Side(side)) && !marks[side as usize] {
            mark_loop(marks, front, Side(side));
            loops += 1;
        }
    }
    loops
}

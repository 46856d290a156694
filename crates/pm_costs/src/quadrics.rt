//! The quadrics of the live vertices, each in a slot of its own.
ghost use Rattle.std.specs.Prelude.{◌≡◌, ◌+◌, ◌*◌, ◌<◌, ◌≤◌, ◌≢◌, ℕ, Bool, [], ◌∷◌, All, cond};
ghost use Rattle.std.specs.Prelude.{length, slice_index_or, slice_set, IfOk};
ghost use Rattle.pm_base.specs.Meshes.{mesh_of, IsFace, IsWellFormed};
ghost use Rattle.pm_quadric.specs.declared.quadric.TheConstants.{MOST_PLANES};
ghost use Rattle.pm_quadric.specs.Sums.{plus_sums, sums_of, zero_sums};
ghost use Rattle.pm_runs.specs.Planes.{planes_at, plane_of_face, has_corner};
ghost use Rattle.pm_policies.specs.Policies.{plain_keeping};
ghost use Rattle.pm_costs.specs.Slots.{mesh_with, quadric_at};
ghost use Rattle.pm_costs.specs.Plain.{GoesByPlain};

use crate::Costs;
use pm_base::{Collapse, Corners, Mesh, Point};
use pm_quadric::{Quadric, best_place};
use pm_shrink::Shrink;
use std::alloc::{AllocError, Global};
use std::marker::Model;

/// The answer for want of memory.
pub type OutOfMemory = AllocError;

/// Quadrics by vertex number: the costs of the plain policies. A quadric is large, and each
/// collapse makes one live vertex of two: so the new vertex takes a slot of theirs, and there are
/// only as many slots as points. Contracts see two lists: by vertex number the slot, and the
/// quadric that stands there. A vertex that was merged, or isn't made yet, has a slot too, that of
/// any other.
#[derive(Drop)]
pub struct QuadricTable {
    // By vertex number.
    slots: Vec<u32>,
    // By slot.
    quadrics: Vec<Quadric>,
}

impl Model for QuadricTable {
    ghost use Rattle.std.specs.Prelude.{◌<◌, All, length};
    ghost use Rattle.pm_costs.specs.Slots.{Quadrics, by_vertex};

    ghost Value = { Quadrics };

    ghost view = { λ t. record {
      slots = t.slots.items;
      quadrics = by_vertex t.slots.items t.quadrics.items;
    } };

    ghost invariant = { λ t. All (λ k. k < length t.quadrics.items) t.slots.items };
}

impl QuadricTable {
    /// The quadrics of a mesh before the first collapse. The only call that takes memory, some 180
    /// bytes a point. O(V + F) for V points and F faces.
    pub fn new(alloc: Global, mesh: &Mesh) -> Result<QuadricTable, OutOfMemory>
        requires { IsWellFormed (mesh_of mesh.now) }
        ensures { IfOk result (λ t. (kept : ℕ → Bool)
            → GoesByPlain t (plain_keeping kept) (mesh_of mesh.now) []) }
    {
        let points = mesh.points.as_slice();
        QuadricTable::with_room(alloc, points, mesh.faces.as_slice(), 2 * points.len())
    }

    // The quadric of each point, in the slot of the same number.
    fn with_room(
        alloc: Global,
        points: &[Point],
        faces: &[Corners],
        room: usize,
    ) -> Result<QuadricTable, OutOfMemory>
        requires formed { IsWellFormed (mesh_with points.now faces.now) }
        requires least { length points.now ≤ room }
        requires most { room ≤ 2 * length points.now }
        ensures len { IfOk result (λ t. length t.slots ≡ room) }
        ensures slots { IfOk result (λ t. (v : ℕ) → v < length points.now
            → slice_index_or t.slots v 0 ≡ v) }
        ensures quadrics { IfOk result (λ t. (v : ℕ) → v < length points.now → quadric_at t v
            ≡ sums_of (planes_at (mesh_with points.now faces.now) v)) }
    {
        let slots = first_slots(alloc, points.len() as u32, room)?;
        let quadrics = face_quadrics(alloc, points, faces)?;
        Ok(QuadricTable { slots, quadrics })
    }

    // The quadric of a vertex.
    fn get(&self, v: u32) -> &Quadric
        requires { v < length self.now.slots }
        ensures { result.now ≡ quadric_at self.now v }
    {
        &self.quadrics[self.slots[v as usize] as usize]
    }

    // Gives the vertex s the quadrics of a and b together, in the slot of a.
    fn merge(&mut self, a: u32, b: u32, s: u32)
        requires a_in { a < length self.old.slots }
        requires b_in { b < length self.old.slots }
        requires s_in { s < length self.old.slots }
        requires few { (quadric_at self.old a).count
            + (quadric_at self.old b).count ≤ MOST_PLANES }
        ensures slots { self.new.slots
            ≡ slice_set self.old.slots s (slice_index_or self.old.slots a 0) }
        ensures sum { quadric_at self.new s
            ≡ plus_sums (quadric_at self.old a) (quadric_at self.old b) }
        ensures others { (v : ℕ) → v ≢ s
            → slice_index_or self.old.slots v 0 ≢ slice_index_or self.old.slots a 0
            → quadric_at self.new v ≡ quadric_at self.old v }
    {
        let slot = self.slots[a as usize];
        let sum = self.get(a).plus(self.get(b));
        self.quadrics[slot as usize] = sum;
        self.slots[s as usize] = slot;
    }
}

impl Costs for QuadricTable {
    ghost goes_by = { GoesByPlain };

    fn best(&self, shrink: &Shrink, a: u32, b: u32) -> (Point, u128) {
        let both = self.get(a).plus(self.get(b));
        best_place(&both, shrink.place(a), shrink.place(b))
    }

    fn put(&self, shrink: &Shrink, a: u32, b: u32, place: Point) -> Point {
        let _ = shrink;
        let _ = a;
        let _ = b;
        place
    }

    fn merged(&mut self, shrink: &Shrink, entry: &Collapse) {
        let _ = shrink;
        self.merge(entry.t, entry.u, entry.s);
    }
}

// For each point the slot of its number, and any for each vertex that can come later.
fn first_slots(alloc: Global, points: u32, room: usize) -> Result<Vec<u32>, OutOfMemory>
    requires least { points ≤ room }
    requires most { room ≤ 2 * points }
    ensures len { IfOk result (λ slots. length slots.items ≡ room) }
    ensures each { IfOk result (λ slots. (v : ℕ) → v < points
        → slice_index_or slots.items v 0 ≡ v) }
    ensures within { IfOk result (λ slots. All (λ k. k < points) slots.items) }
{
    let mut slots = vec![in alloc; 0; room]?;
    for v in 0..points {
        slots[v as usize] = v;
    }
    Ok(slots)
}

// The quadric of each point.
fn face_quadrics(
    alloc: Global,
    points: &[Point],
    faces: &[Corners],
) -> Result<Vec<Quadric>, OutOfMemory>
    requires formed { IsWellFormed (mesh_with points.now faces.now) }
    ensures len { IfOk result (λ quadrics. length quadrics.items ≡ length points.now) }
    ensures each { IfOk result (λ quadrics. (v : ℕ) → v < length points.now
        → slice_index_or quadrics.items v zero_sums
        ≡ sums_of (planes_at (mesh_with points.now faces.now) v)) }
{
    let mut quadrics = vec![in alloc; Quadric::zero(); points.len()]?;
    for face in 0..faces.len() {
        add_face(&mut quadrics, points, &faces[face]);
    }
    Ok(quadrics)
}

// Adds the plane of a face to the quadrics of its corners.
fn add_face(quadrics: &mut Vec<Quadric>, points: &[Point], face: &Corners)
    requires face { IsFace (length points.now) face.now }
    requires room { length points.now ≤ length quadrics.old.items }
    requires few { (v : ℕ) → (slice_index_or quadrics.old.items v zero_sums).count < MOST_PLANES }
    ensures len { length quadrics.new.items ≡ length quadrics.old.items }
    ensures each { (v : ℕ) → slice_index_or quadrics.new.items v zero_sums
        ≡ cond (has_corner v face.now)
        (plus_sums (slice_index_or quadrics.old.items v zero_sums)
        (sums_of (plane_of_face (mesh_with points.now []) face.now ∷ [])))
        (slice_index_or quadrics.old.items v zero_sums) }
{
    let quadric = Quadric::of_face(
        points[face.a as usize],
        points[face.b as usize],
        points[face.c as usize],
    );
    add(quadrics, face.a, &quadric);
    add(quadrics, face.b, &quadric);
    add(quadrics, face.c, &quadric);
}

fn add(quadrics: &mut Vec<Quadric>, v: u32, quadric: &Quadric)
    requires within { v < length quadrics.old.items }
    requires few { (slice_index_or quadrics.old.items v zero_sums).count + quadric.now.count
        ≤ MOST_PLANES }
    ensures { quadrics.new.items ≡ slice_set quadrics.old.items v
        (plus_sums (slice_index_or quadrics.old.items v zero_sums) quadric.now) }
{
    let sum = quadrics[v as usize].plus(quadric);
    quadrics[v as usize] = sum;
}

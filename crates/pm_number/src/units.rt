//! The units of the hierarchy of a run, from its log and the tables of its numbers.
ghost use Rattle.std.specs.Prelude.{true, ◌≡◌, ◌+◌, ◌*◌, ◌<◌, ℕ, Some, length, is_some};
ghost use Rattle.std.specs.Prelude.{slice_index_or};
ghost use Rattle.pm_base.specs.Place.{is_place};
ghost use Rattle.pm_base.specs.Counts.{one_if};
ghost use Rattle.pm_forest.specs.Faces.{no_face_corners};
ghost use Rattle.pm_forest.specs.Forest.{record_at};
ghost use Rattle.pm_forest.specs.Places.{no_root};
ghost use Rattle.pm_forest.specs.Rules.{word_of, head_of};
ghost use Rattle.pm_forest.specs.Shaping.{next_root};
ghost use Rattle.pm_beyond.specs.Walks.{number_of};
ghost use Rattle.pm_number.specs.Numbering.{step_of, place_number, numbered_face, numbered_side};
ghost use Rattle.pm_number.specs.Numbering.{left_over};
ghost use Rattle.pm_number.specs.Tables.{AreNumbers, run_by, hierarchy_by};

use crate::tables::Numbers;
use pm_base::{Collapse, FaceId, Side};
use pm_forest::{Face, Head};

impl Numbers<'_> {
    /// Root `i`: its place, how many leaves it has, and its input number.
    pub fn root(&self, i: usize) -> ([i32; 3], u32, u32)
        requires numbers { AreNumbers self.now }
        requires inside { i < length self.now.left.items }
        ensures value { next_root result.0 result.1 result.2
            ≡ slice_index_or (hierarchy_by self.now).roots i no_root }
        ensures on_grid { let r = run_by self.now in
            is_place (place_number r (slice_index_or (left_over r) i 0)) ≡ true }
    {
        let v = self.left[i];
        (
            self.run.place(v),
            self.widths[v as usize],
            self.run.input(v),
        )
    }

    /// Base face `i`.
    pub fn base(&self, i: usize) -> Face
        requires numbers { AreNumbers self.now }
        requires inside { i < length self.now.bases.items }
        ensures { result ≡ slice_index_or (hierarchy_by self.now).bases i no_face_corners }
    {
        self.face(FaceId(self.bases[i]))
    }

    /// Input face `f`, by leaves.
    pub fn face(&self, f: FaceId) -> Face
        requires numbers { AreNumbers self.now }
        requires inside { f.0 < (run_by self.now).net.faces }
        ensures { result ≡ numbered_face (run_by self.now) f.0 }
    {
        let corners = self.run.mesh.faces.get(f.0 as usize);
        Face {
            a: self.leaves[corners.a as usize],
            b: self.leaves[corners.b as usize],
            c: self.leaves[corners.c as usize],
            input: f.0 + 1,
        }
    }

    /// The word that names a neighbour.
    pub fn word(&self, side: Option<Side>) -> u32
        requires numbers { AreNumbers self.now }
        requires inside { (e : ℕ) → number_of side ≡ Some e
            → e < 3 * (run_by self.now).net.faces }
        ensures { result ≡ word_of (numbered_side (run_by self.now) side) }
    {
        match side {
            Some(side) => {
                let face = FaceId(self.faces[side.face().0 as usize]);
                face.side(side.0 % 3).0 + 1
            }
            None => 0,
        }
    }

    /// The head of record `k`.
    pub fn head(&self, k: usize) -> Head
        requires numbers { AreNumbers self.now }
        requires inside { k < length self.now.run.log.now }
        ensures value { result ≡ head_of (record_at (hierarchy_by self.now) k) }
        ensures first { let r = run_by self.now in
            is_place (place_number r (step_of r k).t) ≡ true }
        ensures second { let r = run_by self.now in
            is_place (place_number r (step_of r k).u) ≡ true }
    {
        let run = self.run;
        let collapse = run.step(k);
        Head {
            s: self.nodes[collapse.s as usize],
            width: self.widths[collapse.t as usize],
            t: run.place(collapse.t),
            t_input: run.input(collapse.t),
            u: run.place(collapse.u),
            u_input: run.input(collapse.u),
            presence: presence(collapse),
        }
    }
}

// The word that tells which faces a collapse drops.
fn presence(collapse: &Collapse) -> u32
    ensures { result ≡ one_if (is_some collapse.now.left) + 2 * one_if
        (is_some collapse.now.right) }
{
    match (&collapse.left, &collapse.right) {
        (None, None) => 0,
        (Some(_), None) => 1,
        (None, Some(_)) => 2,
        (Some(_), Some(_)) => 3,
    }
}

//! A run of collapses: the mesh that it begins with, and its log.
ghost use Rattle.std.specs.Prelude.{true, ◌≡◌, ◌≢◌, ◌+◌, ◌<◌, ℕ, length};
ghost use Rattle.pm_base.specs.Place.{is_place};
ghost use Rattle.pm_number.specs.Stages.{entry_at};
ghost use Rattle.pm_number.specs.Numbering.{is_gone, step_of, place_number, input_number};
ghost use Rattle.pm_number.specs.Tables.{run_in, IsSmallRun, all_vertices, coordinates};

use pm_base::{Collapse, Mesh};

/// The mesh that a run begins with, and its collapses in their order.
#[derive(Clone, Copy)]
pub struct Run<'a> {
    pub mesh: &'a Mesh,
    pub log: &'a [Collapse],
}

impl Run<'_> {
    /// Collapse `i`, whose two vertices have lesser numbers than the one that it makes.
    pub fn entry(&self, i: usize) -> &Collapse
        requires run { IsSmallRun (run_in self.now) }
        requires inside { i < length self.now.log.now }
        ensures value { result.now ≡ entry_at (run_in self.now) i }
        ensures made { result.now.s ≡ (run_in self.now).vertices + i }
        ensures first { result.now.t < (run_in self.now).vertices + i }
        ensures second { result.now.u < (run_in self.now).vertices + i }
        ensures differ { result.now.t ≢ result.now.u }
        ensures left { (f : ℕ) → is_gone f result.now.left ≡ true
            → f < (run_in self.now).net.faces }
        ensures right { (f : ℕ) → is_gone f result.now.right ≡ true
            → f < (run_in self.now).net.faces }
    {
        &self.log[i]
    }

    /// The collapse that becomes record `k`: the last one is record 0.
    pub fn step(&self, k: usize) -> &Collapse
        requires run { IsSmallRun (run_in self.now) }
        requires inside { k < length self.now.log.now }
        ensures value { result.now ≡ step_of (run_in self.now) k }
        ensures made { result.now.s < all_vertices (run_in self.now) }
        ensures first { result.now.t < all_vertices (run_in self.now) }
        ensures second { result.now.u < all_vertices (run_in self.now) }
        ensures left { (f : ℕ) → is_gone f result.now.left ≡ true
            → f < (run_in self.now).net.faces }
        ensures right { (f : ℕ) → is_gone f result.now.right ≡ true
            → f < (run_in self.now).net.faces }
    {
        self.entry(self.log.len() - 1 - k)
    }

    /// The place of a vertex.
    pub fn place(&self, v: u32) -> [i32; 3]
        requires { v < (run_in self.now).vertices + length self.now.log.now }
        ensures value { result ≡ coordinates (place_number (run_in self.now) v) }
        ensures on_grid { is_place (place_number (run_in self.now) v) ≡ true }
    {
        let points = self.mesh.points.len();
        let place = if (v as usize) < points {
            self.mesh.points.get(v as usize)
        } else {
            &self.log[v as usize - points].place
        };
        [place.x(), place.y(), place.z()]
    }

    /// The number of an input vertex from 1; 0 for the others.
    #[tactic(auto, unfolding(crate::specs::Numbering::input_number))]
    pub fn input(&self, v: u32) -> u32
        requires { (run_in self.now).vertices < 4294967295 }
        ensures { result ≡ input_number (run_in self.now) v }
    {
        if (v as usize) < self.mesh.points.len() {
            v + 1
        } else {
            0
        }
    }
}

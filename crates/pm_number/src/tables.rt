//! The tables of a run's numbers. Widths are summed up the log; nodes, leaves and faces are
//! numbered down it.
ghost use Rattle.std.specs.Prelude.{◌≡◌, ◌+◌, ◌<◌, ℕ, true, IfOk, length, is_some, slice_index_or};
ghost use Rattle.pm_base.specs.Counts.{one_if};
ghost use Rattle.pm_number.specs.Numbering.{is_gone, left_over, base_faces, width_number};
ghost use Rattle.pm_number.specs.Numbering.{node_number, leaf_number, face_number};
ghost use Rattle.pm_number.specs.Tables.{run_in, IsSmallRun, all_vertices, HasNumbers, AreNumbers};
ghost use Rattle.pm_number.specs.Tables.{RootsHave, HasStarts, with_gone};

use crate::OutOfMemory;
use crate::run::Run;
use pm_base::Gone;
use std::alloc::Global;

/// The numbers of a run: what is left, the widths, nodes and leaves of vertices, and the numbers of
/// faces.
#[derive(Drop)]
pub struct Numbers<'a> {
    pub run: Run<'a>,
    pub left: Vec<u32>,
    pub bases: Vec<u32>,
    pub widths: Vec<u32>,
    pub nodes: Vec<u32>,
    pub leaves: Vec<u32>,
    pub faces: Vec<u32>,
}

impl<'a> Run<'a> {
    /// All numbers of the run. They take linear time, and some twenty bytes for each vertex and
    /// face.
    pub fn numbers(&self, alloc: Global) -> Result<Numbers<'a>, OutOfMemory>
        requires { IsSmallRun (run_in self.now) }
        ensures run { IfOk result (λ numbers. run_in numbers.run ≡ run_in self.now) }
        ensures numbers { IfOk result AreNumbers }
    {
        let left = self.left_over(alloc)?;
        let bases = self.base_faces(alloc)?;
        let widths = self.widths(alloc)?;
        let nodes = self.nodes(alloc, &left)?;
        let leaves = self.starts(alloc, &left, &widths)?;
        let faces = self.faces(alloc, &bases)?;
        Ok(Numbers {
            run: *self,
            left,
            bases,
            widths,
            nodes,
            leaves,
            faces,
        })
    }

    // How many input vertices are merged in each vertex.
    fn widths(&self, alloc: Global) -> Result<Vec<u32>, OutOfMemory>
        requires { IsSmallRun (run_in self.now) }
        ensures { let r = run_in self.now in
            IfOk result (λ widths. HasNumbers widths.items (width_number r) (all_vertices r)) }
    {
        let mut widths = same(alloc, 1, self.mesh.points.len() + self.log.len())?;
        for i in 0..self.log.len() {
            let collapse = self.entry(i);
            widths[collapse.s as usize] = widths[collapse.t as usize] + widths[collapse.u as usize];
        }
        Ok(widths)
    }

    // The nodes of the vertices.
    fn nodes(&self, alloc: Global, left: &[u32]) -> Result<Vec<u32>, OutOfMemory>
        requires run { IsSmallRun (run_in self.now) }
        requires left { left.now ≡ left_over (run_in self.now) }
        ensures { let r = run_in self.now in
            IfOk result (λ nodes. HasNumbers nodes.items (node_number r) (all_vertices r)) }
    {
        let mut nodes = same(alloc, 0, self.mesh.points.len() + self.log.len())?;
        number_left(&mut nodes, left);
        self.number_children(&mut nodes, left.len() as u32);
        Ok(nodes)
    }

    // Numbers the children that the records give.
    fn number_children(&self, nodes: &mut Vec<u32>, roots: u32)
        requires run { IsSmallRun (run_in self.now) }
        requires roots { roots ≡ length (left_over (run_in self.now)) }
        requires len { length nodes.old.items ≡ all_vertices (run_in self.now) }
        requires left { let r = run_in self.now in
            (j : ℕ) → j < roots → RootsHave nodes.old.items (node_number r) (left_over r) j }
        ensures { let r = run_in self.now in
            HasNumbers nodes.new.items (node_number r) (all_vertices r) }
    {
        for i in 0..self.log.len() {
            let collapse = self.entry(i);
            let node = roots + 2 * (self.log.len() - 1 - i) as u32;
            nodes[collapse.t as usize] = node;
            nodes[collapse.u as usize] = node + 1;
        }
    }

    // The first leaf of each vertex.
    fn starts(&self, alloc: Global, left: &[u32], widths: &[u32]) -> Result<Vec<u32>, OutOfMemory>
        requires run { IsSmallRun (run_in self.now) }
        requires left { left.now ≡ left_over (run_in self.now) }
        requires widths { let r = run_in self.now in
            HasNumbers widths.now (width_number r) (all_vertices r) }
        ensures { let r = run_in self.now in
            IfOk result (λ starts. HasNumbers starts.items (leaf_number r) (all_vertices r)) }
    {
        let mut starts = same(alloc, 0, self.mesh.points.len() + self.log.len())?;
        self.start_roots(&mut starts, left, widths);
        self.start_children(&mut starts, widths);
        Ok(starts)
    }

    // The first leaves of the roots.
    fn start_roots(&self, starts: &mut Vec<u32>, left: &[u32], widths: &[u32])
        requires run { IsSmallRun (run_in self.now) }
        requires left { left.now ≡ left_over (run_in self.now) }
        requires widths { let r = run_in self.now in
            HasNumbers widths.now (width_number r) (all_vertices r) }
        requires len { length starts.old.items ≡ all_vertices (run_in self.now) }
        ensures { HasStarts (run_in self.now) starts.new.items 0 }
    {
        let mut start = 0;
        for j in 0..left.len() {
            let root = left[j] as usize;
            starts[root] = start;
            start += widths[root];
        }
    }

    // The first leaves of the children, from those of the nodes that are split.
    fn start_children(&self, starts: &mut Vec<u32>, widths: &[u32])
        requires run { IsSmallRun (run_in self.now) }
        requires widths { let r = run_in self.now in
            HasNumbers widths.now (width_number r) (all_vertices r) }
        requires roots { HasStarts (run_in self.now) starts.old.items 0 }
        ensures { let r = run_in self.now in
            HasNumbers starts.new.items (leaf_number r) (all_vertices r) }
    {
        for d in 0..self.log.len() {
            let collapse = self.step(d);
            let start = starts[collapse.s as usize];
            starts[collapse.t as usize] = start;
            starts[collapse.u as usize] = start + widths[collapse.t as usize];
        }
    }

    // The numbers of the faces.
    fn faces(&self, alloc: Global, bases: &[u32]) -> Result<Vec<u32>, OutOfMemory>
        requires run { IsSmallRun (run_in self.now) }
        requires bases { bases.now ≡ base_faces (run_in self.now) }
        ensures { let r = run_in self.now in
            IfOk result (λ faces. HasNumbers faces.items (face_number r) r.net.faces) }
    {
        let mut faces = same(alloc, 0, self.mesh.faces.len())?;
        number_left(&mut faces, bases);
        self.number_dropped(&mut faces, bases.len() as u32);
        Ok(faces)
    }

    // Numbers the faces of the records, each left face before the right one.
    fn number_dropped(&self, faces: &mut Vec<u32>, bases: u32)
        requires run { IsSmallRun (run_in self.now) }
        requires bases { bases ≡ length (base_faces (run_in self.now)) }
        requires len { length faces.old.items ≡ (run_in self.now).net.faces }
        requires left { let r = run_in self.now in
            (j : ℕ) → j < bases → RootsHave faces.old.items (face_number r) (base_faces r) j }
        ensures { let r = run_in self.now in
            HasNumbers faces.new.items (face_number r) r.net.faces }
    {
        let mut next = bases;
        for d in 0..self.log.len() {
            let collapse = self.step(d);
            next = number_gone(faces, &collapse.left, next);
            next = number_gone(faces, &collapse.right, next);
        }
    }
}

// A table of one number. The length is a parameter, so that no proof unfolds the list.
fn same(alloc: Global, number: u32, n: usize) -> Result<Vec<u32>, OutOfMemory>
    ensures len { IfOk result (λ table. length table.items ≡ n) }
    ensures each { IfOk result (λ table. (k : ℕ) → k < n
        → slice_index_or table.items k 0 ≡ number) }
{
    vec![in alloc; number; n]
}

// Numbers what is left: entry j of the list has the number j.
fn number_left(table: &mut Vec<u32>, left: &[u32])
    requires few { length left.now < 4294967296 }
    requires inside { (j : ℕ) → j < length left.now
        → slice_index_or left.now j 0 < length table.old.items }
    ensures len { length table.new.items ≡ length table.old.items }
    ensures each { (number : ℕ → ℕ)
        → ((j : ℕ) → j < length left.now → number (slice_index_or left.now j 0) ≡ j)
        → (j : ℕ) → j < length left.now → RootsHave table.new.items number left.now j }
{
    for j in 0..left.len() {
        table[left[j] as usize] = j as u32;
    }
}

// Gives a dropped face its number, where there is one, and answers the next number.
fn number_gone(faces: &mut Vec<u32>, gone: &Option<Gone>, number: u32) -> u32
    requires inside { (f : ℕ) → is_gone f gone.now ≡ true → f < length faces.old.items }
    requires few { number < 4294967295 }
    ensures next { result ≡ number + one_if (is_some gone.now) }
    ensures faces { faces.new.items ≡ with_gone faces.old.items gone.now number }
{
    match gone {
        Some(gone) => {
            faces[gone.face.0 as usize] = number;
            number + 1
        }
        None => number,
    }
}

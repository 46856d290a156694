//! What a run leaves: the vertices that no collapse merged, and the faces that none dropped.
ghost use Rattle.std.specs.Prelude.{true, false, ◌≡◌, ◌<◌, ◌||◌, ℕ, IfOk, length, is_some};
ghost use Rattle.std.specs.Prelude.{slice_index_or};
ghost use Rattle.pm_number.specs.Numbering.{picked, taken_by, is_gone, dropped_by, left_over};
ghost use Rattle.pm_number.specs.Numbering.{base_faces};
ghost use Rattle.pm_number.specs.Tables.{run_in, IsSmallRun, all_vertices, is_unset};

use crate::OutOfMemory;
use crate::run::Run;
use pm_base::Gone;
use std::alloc::Global;

impl Run<'_> {
    /// The vertices that are left, ascending.
    pub fn left_over(&self, alloc: Global) -> Result<Vec<u32>, OutOfMemory>
        requires { IsSmallRun (run_in self.now) }
        ensures { IfOk result (λ left. left.items ≡ left_over (run_in self.now)) }
    {
        let taken = self.flag_taken(alloc)?;
        unflagged(alloc, &taken)
    }

    /// The faces that are left, ascending.
    pub fn base_faces(&self, alloc: Global) -> Result<Vec<u32>, OutOfMemory>
        requires { IsSmallRun (run_in self.now) }
        ensures { IfOk result (λ bases. bases.items ≡ base_faces (run_in self.now)) }
    {
        let dropped = self.flag_dropped(alloc)?;
        unflagged(alloc, &dropped)
    }

    // For each vertex whether a collapse merges it into another.
    fn flag_taken(&self, alloc: Global) -> Result<Vec<bool>, OutOfMemory>
        requires { IsSmallRun (run_in self.now) }
        ensures len { IfOk result (λ flags. length flags.items ≡ all_vertices (run_in self.now)) }
        ensures each { let r = run_in self.now in IfOk result
            (λ flags. (v : ℕ) → v < all_vertices r → slice_index_or flags.items v false
            ≡ is_some (taken_by r v)) }
    {
        let mut flags = no_flags(alloc, self.mesh.points.len() + self.log.len())?;
        for i in 0..self.log.len() {
            let collapse = self.entry(i);
            flags[collapse.t as usize] = true;
            flags[collapse.u as usize] = true;
        }
        Ok(flags)
    }

    // For each face whether a collapse drops it.
    fn flag_dropped(&self, alloc: Global) -> Result<Vec<bool>, OutOfMemory>
        requires { IsSmallRun (run_in self.now) }
        ensures len { IfOk result (λ flags. length flags.items ≡ (run_in self.now).net.faces) }
        ensures each { let r = run_in self.now in IfOk result
            (λ flags. (f : ℕ) → f < r.net.faces → slice_index_or flags.items f false
            ≡ is_some (dropped_by r f)) }
    {
        let mut flags = no_flags(alloc, self.mesh.faces.len())?;
        for i in 0..self.log.len() {
            let collapse = self.entry(i);
            flag_gone(&mut flags, &collapse.left);
            flag_gone(&mut flags, &collapse.right);
        }
        Ok(flags)
    }
}

// Flags none of which is set. The length is a parameter, so that no proof unfolds the list.
fn no_flags(alloc: Global, n: usize) -> Result<Vec<bool>, OutOfMemory>
    ensures len { IfOk result (λ flags. length flags.items ≡ n) }
    ensures unset { IfOk result (λ flags. (k : ℕ) → k < n → slice_index_or flags.items k false
        ≡ false) }
{
    vec![in alloc; false; n]
}

// Sets the flag of a face that is dropped, where one is.
fn flag_gone(flags: &mut Vec<bool>, gone: &Option<Gone>)
    requires { (f : ℕ) → is_gone f gone.now ≡ true → f < length flags.old.items }
    ensures len { length flags.new.items ≡ length flags.old.items }
    ensures each { (f : ℕ) → f < length flags.old.items
        → slice_index_or flags.new.items f false
        ≡ (is_gone f gone.now || slice_index_or flags.old.items f false) }
{
    if let Some(gone) = gone {
        flags[gone.face.0 as usize] = true;
    }
}

// The numbers whose flags aren't set, ascending.
fn unflagged(alloc: Global, flags: &[bool]) -> Result<Vec<u32>, OutOfMemory>
    requires { length flags.now < 4294967296 }
    ensures { IfOk result (λ numbers. numbers.items
        ≡ picked (is_unset flags.now) 0 (length flags.now)) }
{
    let mut numbers = Vec::new(alloc);
    for k in 0..flags.len() {
        if !flags[k] {
            numbers.push(k as u32)?;
        }
    }
    Ok(numbers)
}

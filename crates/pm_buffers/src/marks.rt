//! Marks on items, by which lists are found to have none twice.
ghost use Rattle.std.specs.Prelude.{◌≡◌, ◌≢◌, ℕ, ◌<◌, ◌≤◌, ◌⊎◌, length, true, false};
ghost use Rattle.std.specs.Prelude.{slice_index_or};
ghost use Rattle.pm_buffers.specs.Buffers.{at};
ghost use Rattle.pm_buffers.specs.Changes.{Has, AreApart};
ghost use Rattle.pm_buffers.specs.Tables.{AreClear};

// Marks the items up to the first that is marked, and tells how many it has marked.
fn mark_all(marks: &mut [bool], items: &[u32]) -> usize
    requires within { (k : ℕ) → k < length items.now → at items.now k < length marks.old }
    ensures many { result ≤ length items.now }
    ensures len { length marks.new ≡ length marks.old }
    ensures marked { (x : ℕ) → slice_index_or marks.new x false ≡ true
        → (slice_index_or marks.old x false ≡ true) ⊎ Has items.now x }
    ensures all { (k : ℕ) → k < result → slice_index_or marks.new (at items.now k) false ≡ true }
    ensures fresh { (k : ℕ) → k < result
        → slice_index_or marks.old (at items.now k) false ≡ false }
    ensures once { (j k : ℕ) → j < k → k < result → at items.now j ≢ at items.now k }
    ensures twice { result < length items.now
        → (slice_index_or marks.old (at items.now result) false ≡ true)
        ⊎ ((j : ℕ) × (j < result) × (at items.now j ≡ at items.now result)) }
{
    for at in 0..items.len() {
        let item = items[at] as usize;
        if marks[item] {
            return at;
        }
        marks[item] = true;
    }
    items.len()
}

// Takes the marks of the items away.
fn clear_all(marks: &mut [bool], items: &[u32])
    requires within { (k : ℕ) → k < length items.now → at items.now k < length marks.old }
    ensures len { length marks.new ≡ length marks.old }
    ensures cleared { (k : ℕ) → k < length items.now
        → slice_index_or marks.new (at items.now k) false ≡ false }
    ensures none_set { (x : ℕ) → slice_index_or marks.new x false ≡ true
        → slice_index_or marks.old x false ≡ true }
{
    for item in items {
        marks[*item as usize] = false;
    }
}

/// Whether no item stands twice in the two lists. No item is marked before or after.
pub(crate) fn are_apart(marks: &mut [bool], gone: &[u32], put: &[u32]) -> bool
    requires gone { (k : ℕ) → k < length gone.now → at gone.now k < length marks.old }
    requires put { (k : ℕ) → k < length put.now → at put.now k < length marks.old }
    requires clear { AreClear marks.old }
    ensures yes { result ≡ true → AreApart gone.now put.now }
    ensures no { result ≡ false → ¬ AreApart gone.now put.now }
    ensures clear { AreClear marks.new }
    ensures len { length marks.new ≡ length marks.old }
{
    let gone_marked = mark_all(marks, gone);
    let put_marked = mark_all(marks, put);
    clear_all(marks, gone);
    clear_all(marks, put);
    gone_marked == gone.len() && put_marked == put.len()
}

//! Means in several channels: the numbers of a vertex, as the parts of its colour, stand together.
ghost use Rattle.std.specs.Prelude.{◌≡◌, ◌≢◌, ℕ, ◌+◌, ◌*◌, ◌/◌, ◌%◌, ◌<◌, IfOk, length, replicate};
ghost use Rattle.std.specs.Prelude.{slice_index_or};
ghost use Rattle.pm_forest.specs.Forest.{leaf_count, node_count};
ghost use Rattle.pm_paint.specs.Means.{AreAtMost, channel_of, mean_array};

use crate::OutOfMemory;
use crate::means::means_of_numbers;
use crate::sums::list_with_room;
use pm_base::Items;
use pm_forest::Hierarchy;
use std::alloc::Global;

// What the vertices have in one channel.
fn channel_of(
    alloc: Global,
    values: &[u16],
    channels: usize,
    channel: usize,
    vertices: usize,
) -> Result<Items<u64>, OutOfMemory>
    requires channel { channel < channels }
    requires len { length values.now ≡ vertices * channels }
    ensures items { IfOk result (λ numbers. numbers.items
        ≡ channel_of values.now channels channel vertices) }
    ensures small { IfOk result (λ numbers. AreAtMost 65535 numbers.items) }
{
    let mut numbers = list_with_room(alloc, vertices)?;
    for vertex in 0..vertices {
        numbers.push_within_room(u64::from(values[vertex * channels + channel]));
    }
    Ok(numbers)
}

// Puts the means of all nodes in one channel where they stand among those in all.
fn put_channel(all: &mut Vec<u16>, means: &[u16], channels: usize, channel: usize)
    requires channel { channel < channels }
    requires len { length all.old.items ≡ length means.now * channels }
    ensures len { length all.new.items ≡ length all.old.items }
    ensures here { (k : ℕ) → k < length means.now * channels → k % channels ≡ channel
        → slice_index_or all.new.items k 0 ≡ slice_index_or means.now (k / channels) 0 }
    ensures others { (k : ℕ) → k % channels ≢ channel
        → slice_index_or all.new.items k 0 ≡ slice_index_or all.old.items k 0 }
{
    for node in 0..means.len() {
        all[node * channels + channel] = means[node];
    }
}

// So many zeros. The length is a parameter, so that no proof unfolds the list.
fn no_means(alloc: Global, most: usize) -> Result<Vec<u16>, OutOfMemory>
    ensures { IfOk result (λ v. v.items ≡ replicate most 0) }
{
    vec![in alloc; 0u16; most]
}

/// The rounded means of all nodes in each channel: `values` has `channels` numbers for each vertex
/// of the input, in their order, and the answer as many for each node, by number. It takes time
/// linear in nodes times channels, and memory for the answer and, while it runs, for 16 bytes a
/// node.
pub fn means_by_channel(
    alloc: Global,
    h: &Hierarchy,
    channels: u32,
    values: &[u16],
) -> Result<Vec<u16>, OutOfMemory>
    requires { length values.now ≡ leaf_count h.now * channels }
    ensures means { IfOk result (λ means. means.items ≡ mean_array h.now channels values.now) }
    ensures len { IfOk result (λ means. length means.items ≡ node_count h.now * channels) }
{
    let width = channels as usize;
    let mut all = no_means(alloc, h.nodes() as usize * width)?;
    for channel in 0..width {
        let numbers = channel_of(alloc, values, width, channel, h.leaves() as usize)?;
        let means = means_of_numbers(alloc, h, numbers.as_slice())?;
        put_channel(&mut all, means.as_slice(), width, channel);
    }
    Ok(all)
}

//! Fits in several channels: the numbers of a vertex stand together, as the two of a place in a
//! texture.
ghost use Rattle.std.specs.Prelude.{◌≡◌, ◌≢◌, ℕ, ◌+◌, ◌*◌, ◌/◌, ◌%◌, ◌<◌, None, IfOk, OnOk, IfErr};
ghost use Rattle.std.specs.Prelude.{length, replicate, slice_index_or, pos};
ghost use Rattle.pm_forest.specs.Forest.{leaf_count, node_count};
ghost use Rattle.pm_fits.specs.Channels.{channel_of, fit_array};
ghost use Rattle.pm_fits.specs.Faults.{IsRefusal, number_fault};
ghost use Rattle.pm_fits.specs.Fits.{AreNumbers};

use crate::OutOfMemory;
use crate::faults::{FitFault, number_fault};
use crate::fits::fits_by;
use crate::places::place_totals;
use pm_base::Items;
use pm_forest::Hierarchy;
use std::alloc::Global;

// What the vertices have in one channel.
fn channel_of(
    alloc: Global,
    values: &[i32],
    channels: usize,
    channel: usize,
    vertices: usize,
) -> Result<Items<i32>, OutOfMemory>
    requires channel { channel < channels }
    requires len { length values.now ≡ vertices * channels }
    ensures { IfOk result (λ numbers. numbers.items
        ≡ channel_of values.now channels channel vertices) }
{
    let mut numbers = Items::new(alloc);
    numbers.reserve(vertices)?;
    for vertex in 0..vertices {
        numbers.push_within_room(values[vertex * channels + channel]);
    }
    Ok(numbers)
}

// Puts the fits of all nodes in one channel where they stand among those in all.
fn put_channel(all: &mut Vec<i32>, fits: &[i32], channels: usize, channel: usize)
    requires channel { channel < channels }
    requires len { length all.old.items ≡ length fits.now * channels }
    ensures len { length all.new.items ≡ length all.old.items }
    ensures here { (k : ℕ) → k < length fits.now * channels → k % channels ≡ channel
        → slice_index_or all.new.items k (pos 0)
        ≡ slice_index_or fits.now (k / channels) (pos 0) }
    ensures others { (k : ℕ) → k % channels ≢ channel
        → slice_index_or all.new.items k (pos 0) ≡ slice_index_or all.old.items k (pos 0) }
{
    for node in 0..fits.len() {
        all[node * channels + channel] = fits[node];
    }
}

// So many zeros. The length is a parameter, so that no proof unfolds the list.
fn no_fits(alloc: Global, most: usize) -> Result<Vec<i32>, OutOfMemory>
    ensures { IfOk result (λ v. v.items ≡ replicate most (pos 0)) }
{
    vec![in alloc; 0i32; most]
}

// The fits of all nodes in each channel. The sums over places are the same for all channels.
fn fits_in_channels(
    alloc: Global,
    h: &Hierarchy,
    channels: u32,
    values: &[i32],
) -> Result<Vec<i32>, OutOfMemory>
    requires len { length values.now ≡ leaf_count h.now * channels }
    requires small { AreNumbers values.now }
    ensures fits { IfOk result (λ fits. fits.items ≡ fit_array h.now channels values.now) }
    ensures len { IfOk result (λ fits. length fits.items ≡ node_count h.now * channels) }
{
    let width = channels as usize;
    let places = place_totals(alloc, h)?;
    let mut all = no_fits(alloc, h.nodes() as usize * width)?;
    for channel in 0..width {
        let numbers = channel_of(alloc, values, width, channel, h.leaves() as usize)?;
        let fits = fits_by(alloc, h, places.as_slice(), numbers.as_slice())?;
        put_channel(&mut all, fits.as_slice(), width, channel);
    }
    Ok(all)
}

/// What all nodes have in each channel: `values` has `channels` numbers for each vertex of the
/// input, in their order, of at most `GREATEST_NUMBER` in absolute value, and the answer as many
/// for each node, by number. It takes time linear in nodes times channels, and memory for the
/// answer and, while it runs, for some 140 bytes a leaf.
pub fn fits_by_channel(
    alloc: Global,
    h: &Hierarchy,
    channels: u32,
    values: &[i32],
) -> Result<Vec<i32>, FitFault>
    ensures fits { IfOk result (λ fits. fits.items ≡ fit_array h.now channels values.now) }
    ensures len { IfOk result (λ fits. length fits.items ≡ node_count h.now * channels) }
    ensures taken { OnOk result
        (number_fault (leaf_count h.now * channels) values.now ≡ None) }
    ensures refused { IfErr result
        (λ e. IsRefusal (number_fault (leaf_count h.now * channels) values.now) e) }
{
    if let Some(fault) = number_fault(h.leaves() as usize * channels as usize, values) {
        return Err(fault);
    }
    match fits_in_channels(alloc, h, channels, values) {
        Ok(fits) => Ok(fits),
        Err(_) => Err(FitFault::OutOfMemory),
    }
}

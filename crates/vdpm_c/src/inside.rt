//! What the exported functions do with a viewer.
ghost use Rattle.std.specs.Prelude.{◌≡◌, ◌≢◌, ◌≤◌, ◌<◌, ◌*◌, ◌↔◌, ℕ, None, List, length};
ghost use Rattle.pm_base.specs.Counts.{set_of};
ghost use Rattle.pm_forest.specs.Forest.{node_count, leaf_count, splitter_of, maker_of};
ghost use Rattle.pm_forest.specs.Fronts.{ancestor_of};
ghost use Rattle.pm_arrays.specs.Arrays.{coordinates_of};
ghost use Rattle.pm_paint.specs.Means.{mean_array};
ghost use Rattle.pm_fits.specs.Faults.{number_fault};
ghost use Rattle.pm_fits.specs.Channels.{fit_array};
ghost use Rattle.pm_viewer.specs.Causes.{IsRefusal};
ghost use Rattle.vdpm_c.specs.Border.{LineDone, Refused, AreCountsOf, IsCopied};
ghost use Rattle.vdpm_c.specs.Border.{line_status, record_told};

use crate::statuses::{
    BAD_LINE, DONE, NO_MEMORY, NO_RECORD, NO_ROOM, NO_SUCH, NONE, OUT_OF_RANGE, QUIT,
};
use crate::tables::Counts;
use pm_session::{LineFail, Next};
use pm_viewer::{OpenFail, Viewer, cause_of};
use std::alloc::Global;

// The number of a fault, whose place goes out.
pub(crate) fn refused(fail: OpenFail, place: &mut u64) -> u32
    ensures told { (bytes : List ℕ) → IsRefusal bytes fail → result ≢ 5
        → Refused bytes result place.new }
    ensures apart { result ≢ 5 → 11 ≤ result }
    ensures untold { result < 11 → place.new ≡ place.old }
{
    let OpenFail::Faulty(fault) = fail else {
        return NO_MEMORY;
    };
    // (a stream has no other faults)
    let Some(cause) = cause_of(fault) else {
        return NO_MEMORY;
    };
    *place = match cause.place {
        Some(at) => at,
        None => 0,
    };
    cause.number
}

// The status of a line.
fn status_of(ended: Result<Next, LineFail>) -> u32
    ensures { result ≡ line_status ended }
{
    match ended {
        Ok(Next::More) => DONE,
        Ok(Next::Quit) => QUIT,
        Err(LineFail::BadLine) => BAD_LINE,
        Err(LineFail::NoRecord) => NO_RECORD,
        Err(LineFail::Write) => NO_MEMORY,
    }
}

// Does a line.
pub(crate) fn line(viewer: &mut Viewer, text: &[u8]) -> u32
    ensures { LineDone viewer.old text.now result viewer.new }
{
    status_of(viewer.line(text))
}

// Copies items to the front of an array.
pub(crate) fn copy<T: Copy>(items: &[T], out: &mut [T]) -> u32
    ensures copied { length items.now ≤ length out.old
        → (result ≡ 0) × IsCopied items.now out.old out.new }
    ensures no_room { (length items.now ≤ length out.old → ⊥) → (result ≡ 7) × (out.new
        ≡ out.old) }
{
    let n = items.len();
    if n > out.len() {
        return NO_ROOM;
    }
    out[..n].copy_from_slice(items);
    DONE
}

// Counts.
pub(crate) fn counts(viewer: &Viewer) -> Counts
    ensures { AreCountsOf viewer.now result }
{
    Counts {
        shown_nodes: viewer.shown_nodes(),
        shown_faces: viewer.shown_faces(),
        nodes: viewer.nodes(),
        leaves: viewer.leaves(),
        records: viewer.records(),
        digits: viewer.digits(),
    }
}

// The record that splits a node.
pub(crate) fn splitter(viewer: &Viewer, node: u32, record_number: &mut u32) -> u32
    ensures told { node < node_count viewer.now.shown.h
        → (result ≡ 0) × (record_number.new ≡ record_told (splitter_of viewer.now.shown.h node)) }
    ensures no_such { (node < node_count viewer.now.shown.h → ⊥)
        → (result ≡ 8) × (record_number.new ≡ record_number.old) }
{
    if node >= viewer.nodes() {
        return NO_SUCH;
    }
    *record_number = viewer.splitter(node).unwrap_or(NONE);
    DONE
}

// The record that made a node.
pub(crate) fn maker(viewer: &Viewer, node: u32, record_number: &mut u32) -> u32
    ensures told { node < node_count viewer.now.shown.h
        → (result ≡ 0) × (record_number.new ≡ record_told (maker_of viewer.now.shown.h node)) }
    ensures no_such { (node < node_count viewer.now.shown.h → ⊥)
        → (result ≡ 8) × (record_number.new ≡ record_number.old) }
{
    if node >= viewer.nodes() {
        return NO_SUCH;
    }
    *record_number = viewer.maker(node).unwrap_or(NONE);
    DONE
}

// The ancestor of a leaf.
pub(crate) fn ancestor(viewer: &Viewer, leaf: u32, node: &mut u32) -> u32
    ensures told { leaf < leaf_count viewer.now.shown.h
        → (result ≡ 0) × (node.new ≡ ancestor_of viewer.now.shown.h
        (set_of viewer.now.shown.flags) leaf) }
    ensures no_such { (leaf < leaf_count viewer.now.shown.h → ⊥) → (result ≡ 8) × (node.new
        ≡ node.old) }
{
    if leaf >= viewer.leaves() {
        return NO_SUCH;
    }
    *node = viewer.ancestor(leaf);
    DONE
}

// The coordinates of a node.
fn coordinates(viewer: &Viewer, node: u32) -> [i32; 3]
    requires { node < node_count viewer.now.shown.h }
    ensures { result ≡ coordinates_of viewer.now.shown.h node }
{
    let place = viewer.place(node);
    [place.x(), place.y(), place.z()]
}

// Writes the place of a node.
pub(crate) fn place(viewer: &Viewer, node: u32, out: &mut [i32]) -> u32
    ensures told { node < node_count viewer.now.shown.h → 3 ≤ length out.old
        → (result ≡ 0) × IsCopied (coordinates_of viewer.now.shown.h node) out.old out.new }
    ensures no_room { node < node_count viewer.now.shown.h → (3 ≤ length out.old → ⊥)
        → (result ≡ 7) × (out.new ≡ out.old) }
    ensures no_such { (node < node_count viewer.now.shown.h → ⊥) → (result ≡ 8) × (out.new
        ≡ out.old) }
{
    if node >= viewer.nodes() {
        return NO_SUCH;
    }
    let coordinates = coordinates(viewer, node);
    let n = coordinates.len();
    if n > out.len() {
        return NO_ROOM;
    }
    out[..n].copy_from_slice(&coordinates);
    DONE
}

// Writes the means of all nodes.
pub(crate) fn means(
    alloc: Global,
    viewer: &Viewer,
    channels: u32,
    by_vertex: &[u16],
    by_node: &mut [u16],
) -> u32
    ensures done { result ≡ 0
        → IsCopied (mean_array viewer.now.shown.h channels by_vertex.now) by_node.old by_node.new }
    ensures out_of_range { result ≡ 2
        ↔ (length by_vertex.now ≢ leaf_count viewer.now.shown.h * channels) }
    ensures no_room { result ≡ 7
        ↔ (length by_vertex.now ≡ leaf_count viewer.now.shown.h * channels)
        × (length by_node.old < node_count viewer.now.shown.h * channels) }
    ensures statuses { result ≢ 0 → result ≢ 2 → result ≢ 7 → result ≡ 5 }
    ensures unwritten { result ≢ 0 → by_node.new ≡ by_node.old }
{
    let width = channels as usize;
    if by_vertex.len() != viewer.leaves() as usize * width {
        return OUT_OF_RANGE;
    }
    if by_node.len() < viewer.nodes() as usize * width {
        return NO_ROOM;
    }
    match viewer.means(alloc, channels, by_vertex) {
        Ok(means) => copy(&means, by_node),
        Err(_) => NO_MEMORY,
    }
}

// Writes the fits of all nodes.
pub(crate) fn fits(
    alloc: Global,
    viewer: &Viewer,
    channels: u32,
    by_vertex: &[i32],
    by_node: &mut [i32],
) -> u32
    ensures done { result ≡ 0
        → IsCopied (fit_array viewer.now.shown.h channels by_vertex.now) by_node.old by_node.new }
    ensures out_of_range { result ≡ 2
        ↔ (number_fault (leaf_count viewer.now.shown.h * channels) by_vertex.now ≢ None) }
    ensures no_room { result ≡ 7
        ↔ (number_fault (leaf_count viewer.now.shown.h * channels) by_vertex.now ≡ None)
        × (length by_node.old < node_count viewer.now.shown.h * channels) }
    ensures statuses { result ≢ 0 → result ≢ 2 → result ≢ 7 → result ≡ 5 }
    ensures unwritten { result ≢ 0 → by_node.new ≡ by_node.old }
{
    if viewer.number_fault(channels, by_vertex).is_some() {
        return OUT_OF_RANGE;
    }
    if by_node.len() < viewer.nodes() as usize * channels as usize {
        return NO_ROOM;
    }
    match viewer.fits(alloc, channels, by_vertex) {
        Ok(fits) => copy(&fits, by_node),
        Err(_) => NO_MEMORY,
    }
}

//! The lines of each part of a coat.
ghost use Rattle.std.specs.Prelude.{◌≡◌, ◌≤◌, ◌++◌, ◌*◌, IfOk, OnOk, length, List, ℕ};
ghost use Rattle.pm_forest.specs.Forest.{leaf_count, node_count};
ghost use Rattle.pm_forest.specs.Faces.{face_count};
ghost use Rattle.paint.specs.Coat.{AreSizes, coat_end, coat_with, coordinates_of};
ghost use Rattle.paint.specs.Texts.{lines_below};
ghost use Rattle.paint.specs.Lines.{colour_line, texture_line, colour_lines, texture_lines};
ghost use Rattle.paint.specs.Lines.{page_lines, IsFor};

use crate::OutOfMemory;
use crate::coat::Judged;
use crate::judging::part;
use crate::lines::{add_fits, add_means, add_pages};
use crate::sizes::{HEAD, Sizes};
use pm_base::Items;
use pm_fits::{fits_are_sound, fits_by_channel};
use pm_forest::Hierarchy;
use pm_paint::{means_are_sound, means_by_channel};
use std::alloc::{AllocError, Global};

// The same numbers, of 16 bits.
fn widened(alloc: Global, bytes: &[u8]) -> Result<Items<u16>, OutOfMemory>
    ensures { IfOk result (λ numbers. numbers.items ≡ bytes.now) }
{
    let mut numbers = Items::new(alloc);
    numbers.reserve(bytes.len())?;
    for i in 0..bytes.len() {
        numbers.push_within_room(u16::from(bytes[i]));
    }
    Ok(numbers)
}

// Adds the lines of all nodes, by the colours of the input's vertices.
fn add_node_colours(
    alloc: Global,
    text: &mut Vec<u8>,
    h: &Hierarchy,
    colours: &[u8],
) -> Result<(), OutOfMemory>
    requires { length colours.now ≡ leaf_count h.now * 3 }
    ensures { OnOk result (text.new.items
        ≡ text.old.items ++ lines_below (colour_line h.now colours.now) (node_count h.now)) }
{
    means_are_sound();
    let colours = widened(alloc, colours)?;
    let means = means_by_channel(alloc, h, 3, colours.as_slice())?;
    add_means(text, h.nodes(), &means)
}

// Adds the lines of all nodes, by the texture coordinates of the input's vertices.
fn add_node_coordinates(
    alloc: Global,
    text: &mut Vec<u8>,
    h: &Hierarchy,
    coordinates: &[i32],
) -> Result<(), OutOfMemory>
    ensures { OnOk result (text.new.items
        ≡ text.old.items ++ lines_below (texture_line h.now coordinates.now) (node_count h.now)) }
{
    fits_are_sound();
    match fits_by_channel(alloc, h, 2, coordinates) {
        Ok(fits) => add_fits(text, h.nodes(), &fits),
        // The numbers of a coat were judged, so it is out of memory.
        Err(_) => Err(AllocError),
    }
}

/// Adds the lines of colours, where they are there.
#[tactic(auto, using(crate::proofs::CoatLaws::colours_in), unfolding(crate::specs::Lines::colour_lines, crate::specs::Coat::colours_of, crate::specs::Coat::colour_bytes))]
pub(crate) fn add_colours(
    alloc: Global,
    text: &mut Vec<u8>,
    h: &Hierarchy,
    bytes: &[u8],
    sizes: Sizes,
) -> Result<(), OutOfMemory>
    requires sizes { AreSizes sizes }
    requires fits { IsFor h.now sizes }
    requires len { coat_end sizes ≤ length bytes.now }
    ensures { OnOk result
        (text.new.items ≡ text.old.items ++ colour_lines h.now (coat_with sizes bytes.now)) }
{
    if !sizes.has_colours() {
        return Ok(());
    }
    add_node_colours(alloc, text, h, part(bytes, HEAD, sizes.colour_bytes()))
}

/// Adds the lines of texture coordinates, where they are there.
#[tactic(auto, unfolding(crate::specs::Lines::texture_lines))]
pub(crate) fn add_coordinates(
    alloc: Global,
    text: &mut Vec<u8>,
    h: &Hierarchy,
    coat: &Judged,
) -> Result<(), OutOfMemory>
    ensures { (bytes : List ℕ) → coat.now.coordinates.items ≡ coordinates_of coat.now.sizes bytes
        → OnOk result (text.new.items
        ≡ text.old.items ++ texture_lines h.now (coat_with coat.now.sizes bytes)) }
{
    if !coat.sizes.has_coordinates() {
        return Ok(());
    }
    add_node_coordinates(alloc, text, h, coat.coordinates.as_slice())
}

/// Adds the lines of pages, where they are there.
#[tactic(auto, using(crate::proofs::CoatLaws::pages_within), unfolding(crate::specs::Lines::page_lines, crate::specs::Coat::pages_of, crate::specs::Coat::page_bytes))]
pub(crate) fn add_face_pages(
    text: &mut Vec<u8>,
    h: &Hierarchy,
    bytes: &[u8],
    sizes: Sizes,
) -> Result<(), OutOfMemory>
    requires sizes { AreSizes sizes }
    requires fits { IsFor h.now sizes }
    requires len { coat_end sizes ≤ length bytes.now }
    ensures { OnOk result
        (text.new.items ≡ text.old.items ++ page_lines h.now (coat_with sizes bytes.now)) }
{
    if !sizes.has_pages() {
        return Ok(());
    }
    add_pages(text, h, part(bytes, sizes.pages_from(), sizes.page_bytes()))
}

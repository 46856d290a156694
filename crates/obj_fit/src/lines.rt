//! The lines of what was read: polygons, rounding, and what was passed over.
ghost use Rattle.std.specs.Prelude.{◌≡◌, ◌++◌, OnOk};
ghost use Rattle.obj_fit.specs.Texts.{others_line, shading_notes, beside_notes, file_notes};
ghost use Rattle.obj_fit.specs.Texts.{passed_notes, rounded_notes, polygon_notes, inexact_note};
ghost use Rattle.obj_fit.specs.Texts.{line_notes};

use crate::changes::{add_counted, add_note};
use crate::counts::Counts;
use crate::rounded::RoundedFaces;
use crate::text::add_number;
use obj_scan::PassedOver;
use std::alloc::AllocError;

// Adds how many lines were passed over that begin otherwise, and the first of them.
#[tactic(auto, unfolding(crate::specs::Texts::others_line), using(crate::proofs::TextLaws::nothing_added))]
fn add_others(text: &mut Vec<u8>, n: u32, first: u32) -> Result<(), AllocError>
    ensures { OnOk result (text.new.items ≡ text.old.items ++ others_line n first) }
{
    if n == 0 {
        return Ok(());
    }
    text.extend_from_slice(b"prepare: ")?;
    add_counted(text, b"unknown line", b"unknown lines", n)?;
    text.extend_from_slice(b" ignored, the first is line ")?;
    add_number(text, u64::from(first))?;
    text.extend_from_slice(b"\n")?;
    Ok(())
}

// Adds what was passed over after places, and beside faces.
#[tactic(auto, unfolding(crate::specs::Texts::shading_notes))]
fn add_shading(text: &mut Vec<u8>, passed: &PassedOver) -> Result<(), AllocError>
    ensures { OnOk result (text.new.items ≡ text.old.items ++ shading_notes passed.now) }
{
    add_note(text, b"weight", b"weights", b"ignored", passed.weights)?;
    add_note(
        text,
        b"vertex colour",
        b"vertex colours",
        b"ignored",
        passed.colours,
    )?;
    add_note(
        text,
        b"texture coordinate",
        b"texture coordinates",
        b"ignored",
        passed.textures,
    )?;
    add_note(text, b"normal", b"normals", b"ignored", passed.normals)?;
    add_note(
        text,
        b"group line",
        b"group lines",
        b"ignored",
        passed.groups,
    )?;
    Ok(())
}

#[tactic(auto, unfolding(crate::specs::Texts::beside_notes))]
fn add_beside(text: &mut Vec<u8>, passed: &PassedOver) -> Result<(), AllocError>
    ensures { OnOk result (text.new.items ≡ text.old.items ++ beside_notes passed.now) }
{
    add_note(
        text,
        b"material line",
        b"material lines",
        b"ignored",
        passed.materials,
    )?;
    add_note(
        text,
        b"line or point",
        b"lines and points",
        b"ignored",
        passed.elements,
    )?;
    add_note(
        text,
        b"curve or surface",
        b"curves and surfaces",
        b"ignored",
        passed.curves,
    )?;
    add_note(text, b"call", b"calls", b"ignored", passed.calls)?;
    add_others(text, passed.others, passed.first_other)?;
    Ok(())
}

// Adds what was passed over of an STL or a PLY file.
#[tactic(auto, unfolding(crate::specs::Texts::file_notes))]
fn add_of_file(text: &mut Vec<u8>, passed: &PassedOver) -> Result<(), AllocError>
    ensures { OnOk result (text.new.items ≡ text.old.items ++ file_notes passed.now) }
{
    add_note(
        text,
        b"facet attribute",
        b"facet attributes",
        b"ignored",
        passed.attributes,
    )?;
    add_note(
        text,
        b"other property",
        b"other properties",
        b"ignored",
        passed.properties,
    )?;
    add_note(
        text,
        b"other element",
        b"other elements",
        b"ignored",
        passed.other_elements,
    )?;
    Ok(())
}

// Adds what was passed over.
#[tactic(auto, unfolding(crate::specs::Texts::passed_notes))]
fn add_passed(text: &mut Vec<u8>, passed: &PassedOver) -> Result<(), AllocError>
    ensures { OnOk result (text.new.items ≡ text.old.items ++ passed_notes passed.now) }
{
    add_shading(text, passed)?;
    add_beside(text, passed)?;
    add_of_file(text, passed)?;
    Ok(())
}

// Adds what rounding to the grid did to triangles.
#[tactic(auto, unfolding(crate::specs::Texts::rounded_notes))]
fn add_rounded(text: &mut Vec<u8>, rounded: RoundedFaces) -> Result<(), AllocError>
    ensures { OnOk result (text.new.items ≡ text.old.items ++ rounded_notes rounded) }
{
    add_note(
        text,
        b"face",
        b"faces",
        b"made degenerate by rounding",
        rounded.flattened,
    )?;
    add_note(
        text,
        b"face",
        b"faces",
        b"flipped by rounding",
        rounded.overturned,
    )?;
    Ok(())
}

// Adds how many polygons were cut into triangles, and of how many these overlap.
#[tactic(auto, unfolding(crate::specs::Texts::polygon_notes))]
fn add_polygons(text: &mut Vec<u8>, cut: u32, overlapping: u32) -> Result<(), AllocError>
    ensures { OnOk result (text.new.items ≡ text.old.items ++ polygon_notes cut overlapping) }
{
    add_note(text, b"polygon", b"polygons", b"triangulated", cut)?;
    add_note(
        text,
        b"polygon",
        b"polygons",
        b"triangulated with overlaps",
        overlapping,
    )?;
    Ok(())
}

// Adds how many vertices were rounded as they were read.
#[tactic(auto, unfolding(crate::specs::Texts::inexact_note))]
fn add_inexact(text: &mut Vec<u8>, n: u32) -> Result<(), AllocError>
    ensures { OnOk result (text.new.items ≡ text.old.items ++ inexact_note n) }
{
    add_note(
        text,
        b"vertex",
        b"vertices",
        b"rounded at the 18th decimal",
        n,
    )
}

/// Adds what is said of polygons, of vertices that were rounded as they were read, of triangles
/// that rounding to the grid made flat or turned over, and of what was passed over.
#[tactic(auto, unfolding(crate::specs::Texts::line_notes))]
pub(crate) fn add_line_notes(text: &mut Vec<u8>, counts: Counts) -> Result<(), AllocError>
    ensures { OnOk result (text.new.items ≡ text.old.items ++ line_notes counts) }
{
    add_polygons(text, counts.polygons, counts.overlapping)?;
    add_inexact(text, counts.inexact)?;
    add_rounded(text, counts.rounded)?;
    add_passed(text, &counts.passed)?;
    Ok(())
}

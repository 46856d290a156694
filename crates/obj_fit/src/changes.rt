//! The lines of what was done to faces and vertices of the input.
ghost use Rattle.std.specs.Prelude.{◌≡◌, ◌++◌, OnOk};
ghost use Rattle.obj_fit.specs.Texts.{named, counted, note_line, rounding_text, welded_line};
ghost use Rattle.obj_fit.specs.Texts.{dropped_notes, face_notes, inward_note, turn_notes};
ghost use Rattle.obj_fit.specs.Texts.{apart_line, vertex_notes, thin_note};

use crate::counts::Counts;
use crate::lines::add_line_notes;
use crate::text::add_number;
use obj_prepare::Notes;
use pm_turn::TurnCounts;
use std::alloc::AllocError;

// What one thing is called, or what more of them are.
fn named<'a>(one: &'a [u8], many: &'a [u8], n: u32) -> &'a [u8]
    ensures { result.now ≡ named one.now many.now n }
{
    if n == 1 { one } else { many }
}

/// Adds how many there are of something.
pub(crate) fn add_counted(
    text: &mut Vec<u8>,
    one: &[u8],
    many: &[u8],
    n: u32,
) -> Result<(), AllocError>
    ensures { OnOk result (text.new.items ≡ text.old.items ++ counted one.now many.now n) }
{
    add_number(text, u64::from(n))?;
    text.extend_from_slice(b" ")?;
    text.extend_from_slice(named(one, many, n))?;
    Ok(())
}

/// Adds the line of one kind of change, where it was made: to how many of what, and what it was.
#[tactic(auto, unfolding(crate::specs::Texts::note_line), using(crate::proofs::TextLaws::nothing_added))]
pub(crate) fn add_note(
    text: &mut Vec<u8>,
    one: &[u8],
    many: &[u8],
    what: &[u8],
    n: u32,
) -> Result<(), AllocError>
    ensures { OnOk result (text.new.items
        ≡ text.old.items ++ note_line one.now many.now what.now n) }
{
    if n == 0 {
        return Ok(());
    }
    text.extend_from_slice(b"prepare: ")?;
    add_counted(text, one, many, n)?;
    text.extend_from_slice(b" ")?;
    text.extend_from_slice(what)?;
    text.extend_from_slice(b"\n")
}

// Adds how many of the vertices that were welded were so by rounding, where some were.
#[tactic(auto, unfolding(crate::specs::Texts::rounding_text), using(crate::proofs::TextLaws::nothing_added))]
fn add_rounding(text: &mut Vec<u8>, n: u32) -> Result<(), AllocError>
    ensures { OnOk result (text.new.items ≡ text.old.items ++ rounding_text n) }
{
    if n == 0 {
        return Ok(());
    }
    text.extend_from_slice(b", ")?;
    add_number(text, u64::from(n))?;
    text.extend_from_slice(b" of them by rounding")?;
    Ok(())
}

// Adds how many vertices were welded, where some were, and how many of these by rounding.
#[tactic(auto, unfolding(crate::specs::Texts::welded_line), using(crate::proofs::TextLaws::nothing_added))]
fn add_welded(text: &mut Vec<u8>, welded: u32, rounded: u32) -> Result<(), AllocError>
    ensures { OnOk result (text.new.items ≡ text.old.items ++ welded_line welded rounded) }
{
    if welded == 0 {
        return Ok(());
    }
    text.extend_from_slice(b"prepare: ")?;
    add_counted(text, b"vertex welded", b"vertices welded", welded)?;
    add_rounding(text, rounded)?;
    text.extend_from_slice(b"\n")?;
    Ok(())
}

// Adds which faces were left out.
#[tactic(auto, unfolding(crate::specs::Texts::dropped_notes))]
fn add_dropped(text: &mut Vec<u8>, counts: Counts, notes: &Notes) -> Result<(), AllocError>
    ensures { OnOk result (text.new.items ≡ text.old.items ++ dropped_notes counts notes.now) }
{
    add_note(
        text,
        b"degenerate face",
        b"degenerate faces",
        b"dropped: a vertex is named twice",
        counts.twice,
    )?;
    add_note(
        text,
        b"degenerate face",
        b"degenerate faces",
        b"dropped: collapsed to an edge",
        notes.flat,
    )?;
    add_note(
        text,
        b"duplicate face",
        b"duplicate faces",
        b"dropped",
        notes.double,
    )?;
    Ok(())
}

/// Adds what is said of the faces and places of the input.
#[tactic(auto, unfolding(crate::specs::Texts::face_notes))]
pub(crate) fn add_face_notes(
    text: &mut Vec<u8>,
    counts: Counts,
    notes: &Notes,
    rounded: u32,
) -> Result<(), AllocError>
    ensures { OnOk result (text.new.items ≡ text.old.items ++ face_notes counts notes.now rounded) }
{
    add_line_notes(text, counts)?;
    add_welded(text, notes.joined, rounded)?;
    add_dropped(text, counts, notes)?;
    Ok(())
}

// Adds how many closed surfaces look inward.
#[tactic(auto, unfolding(crate::specs::Texts::inward_note))]
fn add_inward(text: &mut Vec<u8>, n: u32) -> Result<(), AllocError>
    ensures { OnOk result (text.new.items ≡ text.old.items ++ inward_note n) }
{
    add_note(
        text,
        b"closed surface",
        b"closed surfaces",
        b"facing inward or around a void",
        n,
    )
}

/// Adds what is said of turning.
#[tactic(auto, unfolding(crate::specs::Texts::turn_notes))]
pub(crate) fn add_turn_notes(text: &mut Vec<u8>, turns: TurnCounts) -> Result<(), AllocError>
    ensures { OnOk result (text.new.items ≡ text.old.items ++ turn_notes turns) }
{
    add_note(
        text,
        b"face",
        b"faces",
        b"flipped for consistent winding",
        turns.turned,
    )?;
    add_note(
        text,
        b"face",
        b"faces",
        b"in non-orientable patches",
        turns.twisted,
    )?;
    add_note(
        text,
        b"non-manifold edge",
        b"non-manifold edges",
        b"of three faces or more",
        turns.crowded,
    )?;
    add_inward(text, turns.inside_out)?;
    Ok(())
}

// Adds that what was split off comes apart, where something was.
#[tactic(auto, unfolding(crate::specs::Texts::apart_line), using(crate::proofs::TextLaws::nothing_added))]
fn add_apart(text: &mut Vec<u8>, split: u32) -> Result<(), AllocError>
    ensures { OnOk result (text.new.items ≡ text.old.items ++ apart_line split) }
{
    if split == 0 {
        return Ok(());
    }
    text.extend_from_slice(b"prepare: what was cut can come apart at coarser levels: ")?;
    text.extend_from_slice(b"simplify --keep-border holds the border\n")?;
    Ok(())
}

/// Adds what is said of what was cut and left out.
#[tactic(auto, unfolding(crate::specs::Texts::vertex_notes))]
pub(crate) fn add_vertex_notes(text: &mut Vec<u8>, notes: &Notes) -> Result<(), AllocError>
    ensures { OnOk result (text.new.items ≡ text.old.items ++ vertex_notes notes.now) }
{
    add_note(text, b"edge", b"edges", b"cut open", notes.cut)?;
    add_note(
        text,
        b"vertex",
        b"vertices",
        b"duplicated at cuts",
        notes.split,
    )?;
    add_apart(text, notes.split)?;
    add_note(
        text,
        b"isolated vertex",
        b"isolated vertices",
        b"dropped",
        notes.unnamed,
    )?;
    add_note(
        text,
        b"vertex",
        b"vertices",
        b"dropped: no face is left",
        notes.gone,
    )?;
    Ok(())
}

/// Adds how many faces have no area.
#[tactic(auto, unfolding(crate::specs::Texts::thin_note))]
pub(crate) fn add_thin(text: &mut Vec<u8>, n: u32) -> Result<(), AllocError>
    ensures { OnOk result (text.new.items ≡ text.old.items ++ thin_note n) }
{
    add_note(text, b"face", b"faces", b"of zero area", n)
}

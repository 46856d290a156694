//! The line that tells how places lead back, and what is said of the work.
ghost use Rattle.std.specs.Prelude.{◌≡◌, ◌<◌, ◌≤◌, ◌+◌, ◌-◌, ◌/◌, ◌^◌, ◌*◌, ◌++◌, OnOk, IfOk};
ghost use Rattle.std.specs.Prelude.{codes, pos, ◌+ℤ◌, ◌*ℤ◌, unsigned_abs};
ghost use Rattle.pm_base.specs.Canonical.{coordinate_text};
ghost use Rattle.pm_base.specs.declared.limits.TheConstants.{GREATEST_COORDINATE};
ghost use Rattle.obj_prepare.specs.Back.{middle, middle_of, way_back_of};
ghost use Rattle.obj_prepare.specs.Placing.{IsSized};
ghost use Rattle.obj_fit.specs.Texts.{scale_text, middle_text, way_text, head_line as head_line_of};
ghost use Rattle.obj_fit.specs.Texts.{last_note, within_text, notes_text};

use crate::account::add_account;
use crate::changes::{add_face_notes, add_thin, add_turn_notes, add_vertex_notes};
use crate::counts::Counts;
use crate::text::{add_coordinate, add_length, add_number};
use crate::warning::add_warning;
use obj_prepare::{Fit, LongestAxis, Notes, PointBox, extent};
use std::alloc::{AllocError, Global};

// The sum of the ends of an axis.
fn ends(low: i128, high: i128) -> i128
    requires low { unsigned_abs low ≤ 10 ^ 32 }
    requires high { unsigned_abs high ≤ 10 ^ 32 }
    ensures value { result ≡ low +ℤ high }
    ensures most { unsigned_abs result ≤ 2 * 10 ^ 32 }
{
    low + high
}

fn five_times(n: i128) -> i128
    requires { unsigned_abs n ≤ 2 * 10 ^ 32 }
    ensures value { result ≡ pos 5 *ℤ n }
    ensures most { unsigned_abs result ≤ 10 ^ 33 }
{
    5 * n
}

/// The middle of an axis, in units of 10^-19.
pub(crate) fn middle(low: i128, high: i128) -> i128
    requires low { unsigned_abs low ≤ 10 ^ 32 }
    requires high { unsigned_abs high ≤ 10 ^ 32 }
    ensures value { result ≡ middle low high }
    ensures most { unsigned_abs result ≤ 10 ^ 33 }
{
    five_times(ends(low, high))
}

// Adds the extent of a box, and twice the size.
#[tactic(auto, unfolding(crate::specs::Texts::scale_text))]
fn add_scale(text: &mut Vec<u8>, size: u32, b: &PointBox) -> Result<(), AllocError>
    ensures { OnOk result (text.new.items ≡ text.old.items ++ scale_text (way_back_of size b.now)) }
{
    text.extend_from_slice(b"coordinate = ")?;
    add_length(text, extent(b))?;
    text.extend_from_slice(b" / ")?;
    add_number(text, 2 * u64::from(size))?;
    text.extend_from_slice(b" * place + (")?;
    Ok(())
}

// Adds the middle of an axis.
fn add_axis(text: &mut Vec<u8>, low: i128, high: i128) -> Result<(), AllocError>
    requires low { unsigned_abs low ≤ 10 ^ 32 }
    requires high { unsigned_abs high ≤ 10 ^ 32 }
    ensures { OnOk result (text.new.items ≡ text.old.items
        ++ coordinate_text 19 (middle low high)) }
{
    add_coordinate(text, middle(low, high))
}

// Adds the middle of each axis of a box.
fn add_x(text: &mut Vec<u8>, b: &PointBox) -> Result<(), AllocError>
    ensures { OnOk result (text.new.items ≡ text.old.items
        ++ coordinate_text 19 (middle b.now.low.x b.now.high.x)) }
{
    add_axis(text, b.low.x(), b.high.x())
}

fn add_y(text: &mut Vec<u8>, b: &PointBox) -> Result<(), AllocError>
    ensures { OnOk result (text.new.items ≡ text.old.items
        ++ coordinate_text 19 (middle b.now.low.y b.now.high.y)) }
{
    add_axis(text, b.low.y(), b.high.y())
}

fn add_z(text: &mut Vec<u8>, b: &PointBox) -> Result<(), AllocError>
    ensures { OnOk result (text.new.items ≡ text.old.items
        ++ coordinate_text 19 (middle b.now.low.z b.now.high.z)) }
{
    add_axis(text, b.low.z(), b.high.z())
}

#[tactic(auto, unfolding(crate::specs::Texts::middle_text))]
fn add_middle(text: &mut Vec<u8>, b: &PointBox) -> Result<(), AllocError>
    ensures { OnOk result (text.new.items ≡ text.old.items ++ middle_text (middle_of b.now)) }
{
    add_x(text, b)?;
    text.extend_from_slice(b" ")?;
    add_y(text, b)?;
    text.extend_from_slice(b" ")?;
    add_z(text, b)?;
    Ok(())
}

// Adds how places lead back to coordinates.
#[tactic(auto, unfolding(crate::specs::Texts::way_text))]
fn add_way_back(text: &mut Vec<u8>, size: u32, b: &PointBox) -> Result<(), AllocError>
    ensures { OnOk result (text.new.items ≡ text.old.items ++ way_text (way_back_of size b.now)) }
{
    add_scale(text, size, b)?;
    add_middle(text, b)?;
    text.extend_from_slice(b")\n")
}

/// The first line of the output.
pub fn head_line(alloc: Global, fit: &Fit) -> Result<Vec<u8>, AllocError>
    ensures { IfOk result (λ text. text.items ≡ head_line_of fit.now) }
{
    let mut text = Vec::new(alloc);
    match fit {
        Fit::Standing => text.extend_from_slice(b"# coordinates as they stood\n")?,
        Fit::Scaled(size, b) => {
            text.extend_from_slice(b"# ")?;
            add_way_back(&mut text, *size, b)?;
        }
    }
    Ok(text)
}

// Half a step, rounded up: a number is divided into so many parts.
#[tactic(auto, using(crate::proofs::TextLaws::few_parts))]
fn rounded_up(n: u128, parts: u64) -> u128
    requires some { 0 < parts }
    requires few { parts ≤ 131068 }
    requires most { n ≤ 2 * 10 ^ 32 }
    ensures value { result ≡ (n + parts - 1) / parts }
    ensures most { result ≤ 3 * 10 ^ 32 }
{
    (n + u128::from(parts) - 1) / u128::from(parts)
}

// Adds how near places are to the coordinates.
#[tactic(auto, unfolding(crate::specs::Texts::within_text))]
fn add_within(text: &mut Vec<u8>, size: u32, b: &PointBox) -> Result<(), AllocError>
    requires some { 0 < size }
    requires few { size ≤ GREATEST_COORDINATE }
    ensures { OnOk result (text.new.items ≡ text.old.items
        ++ within_text (way_back_of size b.now)) }
{
    text.extend_from_slice(b"prepare: positions are within ")?;
    add_length(text, rounded_up(extent(b), 4 * u64::from(size)))?;
    text.extend_from_slice(b" of the coordinates\n")?;
    Ok(())
}

// Adds how places that were scaled lead back, and how near.
fn add_scaled(text: &mut Vec<u8>, size: u32, b: &PointBox) -> Result<(), AllocError>
    requires some { 0 < size }
    requires few { size ≤ GREATEST_COORDINATE }
    ensures { OnOk result (text.new.items ≡ text.old.items
        ++ (codes "prepare: " ++ way_text (way_back_of size b.now)
        ++ within_text (way_back_of size b.now))) }
{
    text.extend_from_slice(b"prepare: ")?;
    add_way_back(text, size, b)?;
    add_within(text, size, b)?;
    Ok(())
}

// Adds how places lead back, where they were scaled.
fn add_last(text: &mut Vec<u8>, fit: &Fit) -> Result<(), AllocError>
    requires { IsSized fit.now }
    ensures { OnOk result (text.new.items ≡ text.old.items ++ last_note fit.now) }
{
    match fit {
        Fit::Standing => Ok(()),
        Fit::Scaled(size, b) => add_scaled(text, *size, b),
    }
}

// Adds all that is said.
fn add_notes(
    text: &mut Vec<u8>,
    counts: Counts,
    notes: &Notes,
    rounded: u32,
    fit: &Fit,
    warning: Option<LongestAxis>,
) -> Result<(), AllocError>
    requires { IsSized fit.now }
    ensures { OnOk result (text.new.items ≡ text.old.items
        ++ notes_text counts notes.now rounded fit.now warning) }
{
    add_account(text, counts)?;
    add_face_notes(text, counts, notes, rounded)?;
    add_turn_notes(text, notes.turns)?;
    add_vertex_notes(text, notes)?;
    add_thin(text, counts.thin)?;
    add_last(text, fit)?;
    add_warning(text, warning)?;
    Ok(())
}

/// What is said of the work: how much came out, a line for each kind of change that was made, how
/// places lead back, and the warning.
pub fn notes_text(
    alloc: Global,
    counts: Counts,
    notes: &Notes,
    rounded: u32,
    fit: &Fit,
    warning: Option<LongestAxis>,
) -> Result<Vec<u8>, AllocError>
    requires { IsSized fit.now }
    ensures { IfOk result
        (λ text. text.items ≡ notes_text counts notes.now rounded fit.now warning) }
{
    let mut text = Vec::new(alloc);
    add_notes(&mut text, counts, notes, rounded, fit, warning)?;
    Ok(text)
}

//! What the box of the points stretches between.
ghost use Rattle.std.specs.Prelude.{◌≡◌, ◌++◌, OnOk, codes};
ghost use Rattle.obj_fit.specs.Texts.{axis_letter, longest_text, warning_line};

use crate::text::add_number;
use obj_prepare::{Axis, LongestAxis};
use std::alloc::AllocError;

fn axis_letter(axis: Axis) -> &'static [u8]
    ensures { result.now ≡ axis_letter axis }
{
    match axis {
        Axis::X => b"x",
        Axis::Y => b"y",
        Axis::Z => b"z",
    }
}

// Adds which axis is the longest, and from where to where it goes.
fn add_longest(text: &mut Vec<u8>, longest: LongestAxis) -> Result<(), AllocError>
    ensures { OnOk result (text.new.items ≡ text.old.items ++ longest_text longest) }
{
    text.extend_from_slice(b"the longest axis, ")?;
    text.extend_from_slice(axis_letter(longest.axis))?;
    text.extend_from_slice(b", goes from vertex ")?;
    add_number(text, u64::from(longest.low) + 1)?;
    text.extend_from_slice(b" to vertex ")?;
    add_number(text, u64::from(longest.high) + 1)?;
    text.extend_from_slice(b"\n")?;
    Ok(())
}

// Adds that many triangles collapsed to edges, and the longest axis.
fn add_warned(text: &mut Vec<u8>, longest: LongestAxis) -> Result<(), AllocError>
    ensures { OnOk result (text.new.items ≡ text.old.items
        ++ (codes "prepare: a tenth of the triangles or more collapsed to edges: "
        ++ longest_text longest)) }
{
    text.extend_from_slice(b"prepare: a tenth of the triangles or more collapsed to edges: ")?;
    add_longest(text, longest)?;
    Ok(())
}

/// Adds that many triangles collapsed to edges, and what the box stretches between.
#[tactic(auto, unfolding(crate::specs::Texts::warning_line), using(crate::proofs::TextLaws::nothing_added))]
pub fn add_warning(text: &mut Vec<u8>, warning: Option<LongestAxis>) -> Result<(), AllocError>
    ensures { OnOk result (text.new.items ≡ text.old.items ++ warning_line warning) }
{
    match warning {
        None => Ok(()),
        Some(longest) => add_warned(text, longest),
    }
}

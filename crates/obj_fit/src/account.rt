//! How much there was, and how much came out.
ghost use Rattle.std.specs.Prelude.{◌≡◌, ◌++◌, OnOk};
ghost use Rattle.obj_fit.specs.Texts.{in_out_text, account_text, account_line};

use crate::counts::Counts;
use crate::text::add_number;
use std::alloc::AllocError;

// Adds how many there were and how many came out.
#[tactic(auto, unfolding(crate::specs::Texts::in_out_text))]
fn add_in_out(text: &mut Vec<u8>, what: &[u8], n: u32, m: u32) -> Result<(), AllocError>
    ensures { OnOk result (text.new.items ≡ text.old.items ++ in_out_text what.now n m) }
{
    text.extend_from_slice(what)?;
    add_number(text, u64::from(n))?;
    text.extend_from_slice(b" in, ")?;
    add_number(text, u64::from(m))?;
    text.extend_from_slice(b" out")?;
    Ok(())
}

// Adds how many vertices and triangles there were and came out.
fn add_account_text(text: &mut Vec<u8>, counts: Counts) -> Result<(), AllocError>
    ensures { OnOk result (text.new.items ≡ text.old.items ++ account_text counts) }
{
    add_in_out(
        text,
        b"prepare: vertices ",
        counts.vertices_in,
        counts.vertices_out,
    )?;
    add_in_out(
        text,
        b"; triangles ",
        counts.triangles_in,
        counts.triangles_out,
    )?;
    text.extend_from_slice(b"\n")?;
    Ok(())
}

/// Adds how many vertices and triangles there were and came out, where that isn't the same.
#[tactic(auto, unfolding(crate::specs::Texts::account_line), using(crate::proofs::TextLaws::nothing_added))]
pub fn add_account(text: &mut Vec<u8>, counts: Counts) -> Result<(), AllocError>
    ensures { OnOk result (text.new.items ≡ text.old.items ++ account_line counts) }
{
    if counts.vertices_in == counts.vertices_out && counts.triangles_in == counts.triangles_out {
        return Ok(());
    }
    add_account_text(text, counts)
}

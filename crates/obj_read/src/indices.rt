//! The index of a vertex in a field of a line: positive from the first vertex on, negative from the
//! last one back.
ghost use Rattle.std.specs.Prelude.{◌≡◌, ◌<◌, ◌≤◌, ◌^◌, min, true, false, IfOk, IfNone, IfSome};
ghost use Rattle.std.specs.Prelude.{OnSome};
ghost use Rattle.pm_io.specs.Digits.{value};
ghost use Rattle.obj_read.specs.Indices.{index_text, index_digits, has_digits, index};

use crate::coordinate::is_negative;
use crate::fault::ObjFault;
use crate::leading::{is_end, leading_number};

#[tactic(auto, unfolding(crate::specs::Indices::index_digits))]
fn index_digits(text: &[u8]) -> &[u8]
    ensures { result.now ≡ index_digits text.now }
{
    match text {
        [b'-', rest @ ..] => rest,
        _ => text,
    }
}

// The number of an index without its sign, or `most` where that is less, where it is digits alone.
// Texture and normal stand after a slash.
#[tactic(auto, using(crate::proofs::IndexLaws::index_before, crate::proofs::IndexLaws::index_formed, crate::proofs::IndexLaws::index_empty, crate::proofs::IndexLaws::index_unread))]
fn index_value(field: &[u8], most: u64) -> Option<u64>
    requires { most ≤ 2 ^ 60 }
    ensures none { IfNone result (has_digits (index_digits (index_text field.now)) ≡ false) }
    ensures some { OnSome result (has_digits (index_digits (index_text field.now)) ≡ true) }
    ensures value { IfSome result
        (λ n. n ≡ min (value 0 (index_digits (index_text field.now))) most) }
{
    let text = index_digits(field);
    let (n, rest) = leading_number(text, most);
    if rest.len() == text.len() || !is_end(b'/', rest) {
        return None;
    }
    Some(n)
}

/// The number from 0 of the vertex that a field names after so many vertices, or the field's first
/// fault. There may be any number of digits.
#[tactic(auto, using(crate::proofs::IndexLaws::negative_before), unfolding(crate::specs::Indices::index))]
pub fn index(vertices: u32, field: &[u8]) -> Result<u32, ObjFault>
    ensures value { result ≡ index vertices (index_text field.now) }
    ensures within { IfOk result (λ i. i < vertices) }
{
    let Some(n) = index_value(field, u64::from(vertices) + 1) else {
        return Err(ObjFault::BadNumber);
    };
    if n == 0 || n > u64::from(vertices) {
        return Err(ObjFault::BadIndex);
    }
    let n = n as u32;
    if is_negative(field) {
        Ok(vertices - n)
    } else {
        Ok(n - 1)
    }
}

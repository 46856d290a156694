//! The fields that spell a view, read from left to right.
ghost use Rattle.std.specs.Prelude.{◌≡◌, ◌<◌, ◌≤◌, ◌∷◌, [], true, Some, None};
ghost use Rattle.std.specs.Prelude.{MatchOption, IfSome, IfOk, OnErr};
ghost use Rattle.std.specs.List.{list_all};
ghost use Rattle.pm_view.specs.declared.limits.TheConstants.{GREATEST_TOLERANCE};
ghost use Rattle.pm_view.specs.Views.{IsEye, is_plane};
ghost use Rattle.pm_view.specs.Fields.{spaced_fields, fields_after, eye_of, plane_read};
ghost use Rattle.pm_view.specs.Fields.{first_plane, planes_of, first_sil, view_of};

use crate::eye::Eye;
use crate::limits::{
    GREATEST_EYE_COORDINATE, GREATEST_FOCAL_LENGTH, GREATEST_NORMAL_COMPONENT, GREATEST_OFFSET,
    GREATEST_TOLERANCE,
};
use crate::number::{read_signed, read_small};
use crate::{Plane, View};
use arrayvec::ArrayVec;
use pm_io::read_unsigned;

/// Whether a text spells a view with one tolerance, or with a second one for outlines.
#[derive(Clone, Copy, Debug, PartialEq, Eq)]
pub enum ViewKind {
    Plain,
    Outline,
}

/// The text spells no view.
#[derive(Clone, Copy, Debug, PartialEq, Eq)]
pub struct BadView;

/// The first field, and the rest, which is empty or begins with the space that ends the field.
pub fn cut_field(text: &[u8]) -> (&[u8], &[u8])
    ensures { spaced_fields text.now ≡ result.0.now ∷ fields_after result.1.now }
{
    for (i, b) in text.iter().enumerate() {
        if *b == b' ' {
            return (&text[..i], &text[i..]);
        }
    }
    (text, &text[text.len()..])
}

// The text after the space that ends a field; none where the last field was read.
fn after_space(rest: &[u8]) -> Option<&[u8]>
    ensures { MatchOption result (fields_after rest.now ≡ []) (λ text. fields_after rest.now
        ≡ spaced_fields text.now) }
{
    match rest {
        [] => None,
        [_, text @ ..] => Some(text),
    }
}

/// The next field and the rest; none where the last field was read.
pub fn next_field(rest: &[u8]) -> Option<(&[u8], &[u8])>
    ensures { MatchOption result (fields_after rest.now ≡ []) (λ r. fields_after rest.now ≡ r.0.now
        ∷ fields_after r.1.now) }
{
    Some(cut_field(after_space(rest)?))
}

#[tactic(auto, unfolding(crate::specs::Fields::eye_of))]
fn read_eye(x: &[u8], y: &[u8], z: &[u8]) -> Option<Eye>
    ensures value { result ≡ eye_of x.now y.now z.now }
    ensures in_range { IfSome result IsEye }
{
    let x = read_small(x, GREATEST_EYE_COORDINATE)?;
    let y = read_small(y, GREATEST_EYE_COORDINATE)?;
    let z = read_small(z, GREATEST_EYE_COORDINATE)?;
    Eye::new(x, y, z)
}

#[tactic(auto, unfolding(crate::specs::Fields::plane_read))]
fn read_plane(a: &[u8], b: &[u8], c: &[u8], d: &[u8]) -> Option<Plane>
    ensures value { result ≡ plane_read a.now b.now c.now d.now }
    ensures in_range { IfSome result (λ f. is_plane f ≡ true) }
{
    Some(Plane {
        a: read_small(a, GREATEST_NORMAL_COMPONENT)?,
        b: read_small(b, GREATEST_NORMAL_COMPONENT)?,
        c: read_small(c, GREATEST_NORMAL_COMPONENT)?,
        d: read_signed(d, GREATEST_OFFSET)?,
    })
}

// The first plane and the rest.
#[tactic(auto, unfolding(crate::specs::Fields::first_plane))]
fn cut_plane(text: &[u8]) -> Option<(Plane, &[u8])>
    ensures value { MatchOption result (first_plane (spaced_fields text.now) ≡ None)
        (λ r. first_plane (spaced_fields text.now) ≡ Some (r.0, fields_after r.1.now)) }
    ensures in_range { IfSome result (λ r. is_plane r.0 ≡ true) }
{
    let (a, rest) = cut_field(text);
    let (b, rest) = next_field(rest)?;
    let (c, rest) = next_field(rest)?;
    let (d, rest) = next_field(rest)?;
    Some((read_plane(a, b, c, d)?, rest))
}

// The planes that all fields of the rest spell.
fn read_planes(fields: &[u8]) -> Option<ArrayVec<Plane, 6>>
    ensures value { MatchOption result (planes_of 6 (fields_after fields.now) ≡ None)
        (λ planes. planes_of 6 (fields_after fields.now) ≡ Some planes.items) }
    ensures in_range { IfSome result (λ planes. list_all is_plane planes.items ≡ true) }
{
    let mut planes = ArrayVec::new();
    let mut rest = fields;
    for _plane in 0..6_usize {
        match after_space(rest) {
            None => return Some(planes),
            Some(text) => {
                let (plane, left) = cut_plane(text)?;
                planes.push(plane);
                rest = left;
            }
        }
    }
    match after_space(rest) {
        None => Some(planes),
        Some(_) => None,
    }
}

// The tolerance for outlines and the rest; none where there has to be a field for it and there is
// none, or it is above the tolerance.
#[tactic(auto, unfolding(crate::specs::Fields::first_sil))]
fn read_sil(kind: ViewKind, tol: u32, rest: &[u8]) -> Option<(u32, &[u8])>
    requires { tol ≤ GREATEST_TOLERANCE }
    ensures value { MatchOption result (first_sil kind tol (fields_after rest.now) ≡ None)
        (λ s. first_sil kind tol (fields_after rest.now) ≡ Some (s.0, fields_after s.1.now)) }
    ensures small { IfSome result (λ s. s.0 ≤ tol) }
{
    match kind {
        ViewKind::Plain => Some((tol, rest)),
        ViewKind::Outline => {
            let (sil, rest) = next_field(rest)?;
            Some((read_unsigned(sil, tol)?, rest))
        }
    }
}

#[tactic(auto, unfolding(crate::specs::Fields::view_in))]
fn view_in(kind: ViewKind, text: &[u8]) -> Option<View>
    ensures { result ≡ view_of kind text.now }
{
    let (x, rest) = cut_field(text);
    let (y, rest) = next_field(rest)?;
    let (z, rest) = next_field(rest)?;
    let (focal, rest) = next_field(rest)?;
    let (tol, rest) = next_field(rest)?;
    let eye = read_eye(x, y, z)?;
    let focal = read_unsigned(focal, GREATEST_FOCAL_LENGTH)?;
    let tol = read_unsigned(tol, GREATEST_TOLERANCE)?;
    let (sil, rest) = read_sil(kind, tol, rest)?;
    let planes = read_planes(rest)?;
    Some(View::within_range(eye, focal, tol, sil, planes))
}

/// The view that a text spells: the numbers of the eye, the focal length, the tolerance, the
/// tolerance for outlines where the kind is `Outline`, and the four numbers of each of up to six
/// planes, separated by one space. The outlines of a plain view have its one tolerance. It takes no
/// memory.
///
/// BadView comes exactly where the text isn't of this form, a number is out of range, or the
/// tolerance for outlines is above the other.
pub fn read_view(kind: ViewKind, fields: &[u8]) -> Result<View, BadView>
    ensures ok { IfOk result (λ view. view_of kind fields.now ≡ Some view) }
    ensures bad { OnErr result (view_of kind fields.now ≡ None) }
{
    view_in(kind, fields).ok_or(BadView)
}

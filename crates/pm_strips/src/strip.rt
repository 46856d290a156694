//! Puts one strip.
ghost use Rattle.std.specs.Prelude.{◌≡◌, true, length, OnOk};
ghost use Rattle.pm_io.specs.Puts.{PutsThrough};
ghost use Rattle.pm_base.specs.Sides.{face_of};
ghost use Rattle.pm_base.specs.Counts.{set_of};
ghost use Rattle.pm_forest.specs.Faces.{face_count};
ghost use Rattle.pm_strips.specs.Strips.{entered, strip_from, left_by};
ghost use Rattle.pm_strips.specs.Shown.{is_there, beyond_in, node_of_corner, node_text};
ghost use Rattle.pm_strips.specs.Texts.{first_text, entered_text, line_of};

use crate::line::{add_node, put_first};
use crate::sides::{exit_of, first_side, free_beyond, next};
use pm_base::{FaceId, Side};
use pm_front::Front;
use pm_io::{Line, Page, Sink, WriteFault};

// The beginning of a strip's line, from the side with which it begins.
fn put_begin<K: Sink>(
    front: &Front,
    first: Side,
    page: &mut Page,
    out: &mut K,
) -> Result<(), WriteFault>
    requires { is_there front.now.h (set_of front.now.flags) (face_of first.0) ≡ true }
    ensures { let text = first_text (node_of_corner front.now.h (set_of front.now.flags)) first.0 in
        PutsThrough K.Sink out.old out.new page.old page.new text result }
{
    let mut line = Line::new();
    put_first(&mut line, front, first);
    page.add(line.as_slice(), out)
}

// The active node at a corner of a kept face.
fn put_node<K: Sink>(
    front: &Front,
    corner: Side,
    page: &mut Page,
    out: &mut K,
) -> Result<(), WriteFault>
    requires { is_there front.now.h (set_of front.now.flags) (face_of corner.0) ≡ true }
    ensures { let text = node_text (node_of_corner front.now.h (set_of front.now.flags) corner.0) in
        PutsThrough K.Sink out.old out.new page.old page.new text result }
{
    let mut line = Line::new();
    add_node(&mut line, front, corner);
    page.add(line.as_slice(), out)
}

// The nodes of the triangles that a strip enters from an exit on, where the first of them is an odd
// one. Their faces are free no longer.
fn put_entered<K: Sink>(
    free: &mut Vec<bool>,
    front: &Front,
    first_exit: Side,
    page: &mut Page,
    out: &mut K,
) -> Result<(), WriteFault>
    requires len { length free.old.items ≡ face_count front.now.h }
    requires there { is_there front.now.h (set_of front.now.flags) (face_of first_exit.0) ≡ true }
    ensures puts { let h = front.now.h in let T = set_of front.now.flags in
        let sides = entered (beyond_in h T) (face_count h) (set_of free.old.items) true
        first_exit.0 in
        PutsThrough K.Sink out.old out.new page.old page.new
        (entered_text (node_of_corner h T) sides) result }
    ensures left { let h = front.now.h in let T = set_of front.now.flags in
        let sides = entered (beyond_in h T) (face_count h) (set_of free.old.items) true
        first_exit.0 in
        OnOk result (set_of free.new.items ≡ left_by (set_of free.old.items) sides) }
    ensures len { length free.new.items ≡ length free.old.items }
{
    let mut exit = first_exit;
    let mut is_odd = true;
    for _turn in 0..free.len() {
        let Some(side) = free_beyond(free, front, exit) else {
            return Ok(());
        };
        free[side.face().0 as usize] = false;
        let second = next(front, side);
        let third = next(front, second);
        put_node(front, third, page, out)?;
        exit = exit_of(front, is_odd, side);
        is_odd = !is_odd;
    }
    Ok(())
}

/// The line of the strip that begins at a free face. Its faces are free no longer.
pub(crate) fn put_strip<K: Sink>(
    free: &mut Vec<bool>,
    front: &Front,
    face: FaceId,
    page: &mut Page,
    out: &mut K,
) -> Result<(), WriteFault>
    requires len { length free.old.items ≡ face_count front.now.h }
    requires there { is_there front.now.h (set_of front.now.flags) face.0 ≡ true }
    ensures puts { let h = front.now.h in let T = set_of front.now.flags in
        let sides = strip_from (beyond_in h T) (face_count h) (set_of free.old.items) face.0 in
        PutsThrough K.Sink out.old out.new page.old page.new (line_of (node_of_corner h T) sides)
        result }
    ensures left { let h = front.now.h in let T = set_of front.now.flags in
        let sides = strip_from (beyond_in h T) (face_count h) (set_of free.old.items) face.0 in
        OnOk result (set_of free.new.items ≡ left_by (set_of free.old.items) sides) }
    ensures len { length free.new.items ≡ length free.old.items }
{
    free[face.0 as usize] = false;
    let first = first_side(free, front, face);
    put_begin(front, first, page, out)?;
    put_entered(free, front, next(front, first), page, out)?;
    page.add(b"\n", out)?;
    Ok(())
}

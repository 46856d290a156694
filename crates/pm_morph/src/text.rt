//! Writes the text of a geomorph.
ghost use Rattle.std.specs.Prelude.{true, ◌≡◌, ◌<◌, ◌≤◌};
ghost use Rattle.pm_io.specs.Puts.{Puts, PutsThrough};
ghost use Rattle.pm_forest.specs.Forest.{node_count};
ghost use Rattle.pm_forest.specs.Fronts.{is_active};
ghost use Rattle.pm_base.specs.Counts.{set_of};
ghost use Rattle.pm_morph.specs.Elders.{IsPart};
ghost use Rattle.pm_morph.specs.Marks.{AreMarksOf};
ghost use Rattle.pm_morph.specs.Texts.{morph_line, first_morph_line, moved_node, moved_lines};
ghost use Rattle.pm_morph.specs.Texts.{morph_text};
ghost use Rattle.pm_morph.specs.declared.limits.TheConstants.{MOST_PARTS};

use crate::elder::elder;
use crate::interpolation::place_between;
use pm_base::NodeId;
use pm_frame::{put_faces, put_last, put_node};
use pm_front::Front;
use pm_io::{Line, Page, Sink, WriteFault};

// The first line of a geomorph.
#[tactic(auto, unfolding(crate::specs::Texts::morph_line))]
fn put_head(line: &mut Line, vertices: u32, faces: u32, a: u32, b: u32)
    ensures { line.new ≡ morph_line vertices faces a b }
{
    line.clear();
    line.add(b"morph ");
    line.add_number(vertices);
    line.add(b" ");
    line.add_number(faces);
    line.add(b" ");
    line.add_number(a);
    line.add(b" ");
    line.add_number(b);
    line.add(b"\n");
}

// The first line, with how many nodes are active and how many faces are kept.
fn put_first<K: Sink>(
    front: &Front,
    a: u32,
    b: u32,
    page: &mut Page,
    out: &mut K,
) -> Result<(), WriteFault>
    ensures { let text = first_morph_line front.now.h (set_of front.now.flags) a b in
        PutsThrough K.Sink out.old out.new page.old page.new text result }
{
    let mut line = Line::new();
    put_head(&mut line, front.active_count(), front.kept_count(), a, b);
    page.add(line.as_slice(), out)
}

// The line of an active node at a/b of the way from its elder's place to its own.
#[tactic(auto, unfolding(crate::specs::Interpolation::morph_place_at))]
fn put_moved(front: &Front, marks: &[bool], a: u32, b: u32, line: &mut Line, node: NodeId)
    requires marks { AreMarksOf front.now.h marks.now }
    requires part { IsPart front.now.h (set_of marks.now) (set_of front.now.flags) }
    requires some { 0 < b }
    requires most { b ≤ MOST_PARTS }
    requires within { a ≤ b }
    requires there { node.0 < node_count front.now.h }
    requires active { is_active front.now.h (set_of front.now.flags) node.0 ≡ true }
    ensures { line.new ≡ moved_node front.now.h (set_of marks.now) a b node.0 }
{
    let h = front.hierarchy();
    let from = h.place(elder(front, marks, node));
    put_node(line, node.0, &place_between(a, b, &from, &h.place(node)));
}

// A line for each active node.
fn put_nodes<K: Sink>(
    front: &Front,
    marks: &[bool],
    a: u32,
    b: u32,
    page: &mut Page,
    out: &mut K,
) -> Result<(), WriteFault>
    requires marks { AreMarksOf front.now.h marks.now }
    requires part { IsPart front.now.h (set_of marks.now) (set_of front.now.flags) }
    requires some { 0 < b }
    requires most { b ≤ MOST_PARTS }
    requires within { a ≤ b }
    ensures { let text = moved_lines front.now.h (set_of marks.now) (set_of front.now.flags) a b in
        PutsThrough K.Sink out.old out.new page.old page.new text result }
{
    front.invariant();
    let mut line = Line::new();
    let mut from = 0;
    while let Some(node) = front.active_from(from) {
        put_moved(front, marks, a, b, &mut line, node);
        page.add(line.as_slice(), out)?;
        from = node.0 + 1;
    }
    Ok(())
}

// Writes the text at a/b of the way from the marked front to a finer one, in pages of 32,768 bytes.
#[tactic(auto, unfolding(crate::specs::Texts::morph_text))]
pub(crate) fn write_text<K: Sink>(
    front: &Front,
    marks: &[bool],
    a: u32,
    b: u32,
    out: &mut K,
) -> Result<(), WriteFault>
    requires marks { AreMarksOf front.now.h marks.now }
    requires part { IsPart front.now.h (set_of marks.now) (set_of front.now.flags) }
    requires some { 0 < b }
    requires most { b ≤ MOST_PARTS }
    requires within { a ≤ b }
    ensures { let text = morph_text front.now.h (set_of marks.now) (set_of front.now.flags) a b in
        Puts K.Sink out.old out.new text result }
{
    let mut page = Page::new();
    put_first(front, a, b, &mut page, out)?;
    put_nodes(front, marks, a, b, &mut page, out)?;
    put_faces(front, &mut page, out)?;
    put_last(&mut page, out)?;
    page.flush(out)?;
    Ok(())
}

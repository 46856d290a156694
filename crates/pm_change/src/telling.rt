//! Writes a change from the sets of its numbers.
ghost use Rattle.std.specs.Prelude.{true, ◌≡◌, ◌+◌, ◌<◌, ◌≤◌};
ghost use Rattle.pm_io.specs.Puts.{Puts, PutsThrough};
ghost use Rattle.pm_base.specs.Counts.{set_of};
ghost use Rattle.pm_forest.specs.Forest.{node_count};
ghost use Rattle.pm_forest.specs.Faces.{face_count};
ghost use Rattle.pm_forest.specs.Kept.{is_kept};
ghost use Rattle.pm_frame.specs.Frame.{shown_node, shown_face};
ghost use Rattle.pm_change.specs.Gathering.{size_of, sizes_of};
ghost use Rattle.pm_change.specs.Parts.{part_line, lines_in, text_in};
ghost use Rattle.pm_change.specs.Parts.{CanTell, CanTellAll, CanTellSets};
ghost use Rattle.pm_change.specs.Texts.{first_change_line};

use crate::line::{put_gone_face, put_gone_node, put_head};
use crate::parts::Part;
use crate::sets::ChangeSets;
use pm_base::{FaceId, NodeId};
use pm_frame::{put_face, put_last, put_node};
use pm_front::Front;
use pm_io::{Line, Page, Sink, WriteFault};
use pm_sets::NumberSet;
use pm_view::Steps;
use std::sync::ledger::Ledger;

// The first line, with how many nodes are active and how many faces are kept.
fn put_first<K: Sink>(front: &Front, page: &mut Page, out: &mut K) -> Result<(), WriteFault>
    ensures { let text = first_change_line front.now.h (set_of front.now.flags) in
        PutsThrough K.Sink out.old out.new page.old page.new text result }
{
    let mut line = Line::new();
    put_head(&mut line, front.active_count(), front.kept_count());
    page.add(line.as_slice(), out)
}

// The line of an active node.
fn put_active(front: &Front, node: NodeId, line: &mut Line)
    requires { node.0 < node_count front.now.h }
    ensures { line.new ≡ shown_node front.now.h node.0 }
{
    put_node(line, node.0, &front.hierarchy().place(node));
}

// The line of a face, with the ancestors of its corners.
fn put_shown(front: &Front, face: FaceId, line: &mut Line)
    requires there { face.0 < face_count front.now.h }
    requires kept { is_kept front.now.h (set_of front.now.flags) face.0 ≡ true }
    ensures { line.new ≡ shown_face front.now.h (set_of front.now.flags) face.0 }
{
    let a = front.corner(face, 0);
    let b = front.corner(face, 1);
    let c = front.corner(face, 2);
    put_face(line, face.0, a.0, b.0, c.0);
}

// The line of a number of a part.
fn put_line(front: &Front, part: Part, number: u32, line: &mut Line)
    requires { CanTell front.now.h (set_of front.now.flags) part number }
    ensures { line.new ≡ part_line front.now.h (set_of front.now.flags) part number }
{
    match part {
        Part::GoneFaces => put_gone_face(line, number),
        Part::GoneNodes => put_gone_node(line, number),
        Part::NewNodes => put_active(front, NodeId(number), line),
        Part::PutFaces => put_shown(front, FaceId(number), line),
    }
}

// A line for each number of a set.
fn put_part<K: Sink, L: Ledger>(
    front: &Front,
    part: Part,
    numbers: &NumberSet,
    steps: &mut Steps<L>,
    page: &mut Page,
    out: &mut K,
) -> Result<(), WriteFault>
    requires { CanTellAll front.now.h (set_of front.now.flags) part numbers.now }
    ensures puts { PutsThrough K.Sink out.old out.new page.old page.new
        (lines_in front.now.h (set_of front.now.flags) part numbers.now) result }
    ensures cost { steps.new ≤ steps.old + size_of numbers.now }
{
    front.invariant();
    let mut line = Line::new();
    let mut from = 0;
    while let Some(number) = numbers.first_from(from) {
        steps.tick();
        put_line(front, part, number, &mut line);
        page.add(line.as_slice(), out)?;
        from = number + 1;
    }
    Ok(())
}

/// Writes the change whose numbers the sets have.
#[tactic(auto, unfolding(crate::specs::Parts::text_in))]
pub(crate) fn write_sets<K: Sink, L: Ledger>(
    front: &Front,
    sets: &ChangeSets,
    steps: &mut Steps<L>,
    out: &mut K,
) -> Result<(), WriteFault>
    requires { CanTellSets front.now.h (set_of front.now.flags) sets.now }
    ensures puts { Puts K.Sink out.old out.new
        (text_in front.now.h (set_of front.now.flags) sets.now) result }
    ensures cost { steps.new ≤ steps.old + sizes_of sets.now }
{
    let mut page = Page::new();
    put_first(front, &mut page, out)?;
    put_part(
        front,
        Part::GoneFaces,
        &sets.gone_faces,
        steps,
        &mut page,
        out,
    )?;
    put_part(
        front,
        Part::GoneNodes,
        &sets.gone_nodes,
        steps,
        &mut page,
        out,
    )?;
    put_part(
        front,
        Part::NewNodes,
        &sets.new_nodes,
        steps,
        &mut page,
        out,
    )?;
    put_part(
        front,
        Part::PutFaces,
        &sets.put_faces,
        steps,
        &mut page,
        out,
    )?;
    put_last(&mut page, out)?;
    page.flush(out)?;
    Ok(())
}

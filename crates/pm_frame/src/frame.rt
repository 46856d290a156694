//! Writes the frame that a front shows.
ghost use Rattle.std.specs.Prelude.{true, ◌≡◌, ◌<◌};
ghost use Rattle.pm_io.specs.Puts.{Puts, PutsThrough};
ghost use Rattle.pm_forest.specs.Forest.{node_count};
ghost use Rattle.pm_forest.specs.Faces.{face_count};
ghost use Rattle.pm_base.specs.Counts.{set_of};
ghost use Rattle.pm_forest.specs.Kept.{is_kept};
ghost use Rattle.pm_frame.specs.Frame.{first_line, shown_node, node_lines, shown_face, face_lines};
ghost use Rattle.pm_frame.specs.Frame.{end_line, frame_text};

use crate::line::{put_end, put_face, put_head, put_node};
use pm_base::{FaceId, NodeId};
use pm_front::Front;
use pm_io::{Line, Page, Sink, WriteFault};

// The first line, with how many nodes are active and how many faces are kept.
fn put_first<K: Sink>(front: &Front, page: &mut Page, out: &mut K) -> Result<(), WriteFault>
    ensures { let text = first_line front.now.h (set_of front.now.flags) in
        PutsThrough K.Sink out.old out.new page.old page.new text result }
{
    let mut line = Line::new();
    put_head(&mut line, front.active_count(), front.kept_count());
    page.add(line.as_slice(), out)
}

// The line of an active node.
fn put_active(front: &Front, line: &mut Line, node: NodeId)
    requires { node.0 < node_count front.now.h }
    ensures { line.new ≡ shown_node front.now.h node.0 }
{
    put_node(line, node.0, &front.hierarchy().place(node));
}

// A line for each active node.
fn put_nodes<K: Sink>(front: &Front, page: &mut Page, out: &mut K) -> Result<(), WriteFault>
    ensures { let text = node_lines front.now.h (set_of front.now.flags) in
        PutsThrough K.Sink out.old out.new page.old page.new text result }
{
    front.invariant();
    let mut line = Line::new();
    let mut from = 0;
    while let Some(node) = front.active_from(from) {
        put_active(front, &mut line, node);
        page.add(line.as_slice(), out)?;
        from = node.0 + 1;
    }
    Ok(())
}

// The line of a face, with the ancestors of its corners.
fn put_shown(front: &Front, line: &mut Line, face: FaceId)
    requires there { face.0 < face_count front.now.h }
    requires kept { is_kept front.now.h (set_of front.now.flags) face.0 ≡ true }
    ensures { line.new ≡ shown_face front.now.h (set_of front.now.flags) face.0 }
{
    let a = front.corner(face, 0);
    let b = front.corner(face, 1);
    let c = front.corner(face, 2);
    put_face(line, face.0, a.0, b.0, c.0);
}

/// Adds a line for each kept face, with the ancestors of its corners, ascending by number: O(1)
/// time for each, and for each 4,096 faces of the hierarchy. It takes no memory. After a fault the
/// sink has gained a part of what the page held and the lines.
pub fn put_faces<K: Sink>(front: &Front, page: &mut Page, out: &mut K) -> Result<(), WriteFault>
    ensures { let text = face_lines front.now.h (set_of front.now.flags) in
        PutsThrough K.Sink out.old out.new page.old page.new text result }
{
    front.invariant();
    let mut line = Line::new();
    let mut from = 0;
    while let Some(face) = front.kept_from(from) {
        put_shown(front, &mut line, face);
        page.add(line.as_slice(), out)?;
        from = face.0 + 1;
    }
    Ok(())
}

/// Adds the last line of a frame. It takes no memory.
pub fn put_last<K: Sink>(page: &mut Page, out: &mut K) -> Result<(), WriteFault>
    ensures { PutsThrough K.Sink out.old out.new page.old page.new end_line result }
{
    let mut line = Line::new();
    put_end(&mut line);
    page.add(line.as_slice(), out)
}

/// Writes the frame text: the active nodes and the kept faces, ascending by number. A frame costs
/// O(1) time for each of these, and for each 4,096 nodes and faces of the hierarchy. It takes no
/// memory. After a fault the sink has gained a part of the text from its front, and not the whole.
///
/// The text is put in pages of 32,768 bytes, of which the last may be shorter: when the call
/// returns, nothing is held back.
#[tactic(auto, unfolding(crate::specs::Frame::frame_text))]
pub fn write_frame<K: Sink>(front: &Front, out: &mut K) -> Result<(), WriteFault>
    ensures { Puts K.Sink out.old out.new (frame_text front.now.h (set_of front.now.flags)) result }
{
    let mut page = Page::new();
    put_first(front, &mut page, out)?;
    put_nodes(front, &mut page, out)?;
    put_faces(front, &mut page, out)?;
    put_last(&mut page, out)?;
    page.flush(out)?;
    Ok(())
}

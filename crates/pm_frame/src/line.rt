//! The lines of a frame.
ghost use Rattle.std.specs.Prelude.{◌≡◌};
ghost use Rattle.pm_frame.specs.Frame.{head_line, node_line, shown_face_line, end_line};

use pm_base::Point;
use pm_io::Line;

/// The first line of a frame.
#[tactic(auto, unfolding(crate::specs::Frame::head_line))]
pub(crate) fn put_head(line: &mut Line, vertices: u32, faces: u32)
    ensures { line.new ≡ head_line vertices faces }
{
    line.clear();
    line.add(b"frame ");
    line.add_number(vertices);
    line.add(b" ");
    line.add_number(faces);
    line.add(b"\n");
}

/// The line of an active node at a place. It takes no memory.
#[tactic(auto, unfolding(crate::specs::Frame::node_line))]
pub fn put_node(line: &mut Line, node: u32, p: &Point)
    ensures { line.new ≡ node_line node p.now }
{
    line.clear();
    line.add(b"v ");
    line.add_number(node);
    line.add(b" ");
    line.add_signed(p.x());
    line.add(b" ");
    line.add_signed(p.y());
    line.add(b" ");
    line.add_signed(p.z());
    line.add(b"\n");
}

/// The line of a kept face, with the nodes at its corners. It takes no memory.
#[tactic(auto, unfolding(crate::specs::Frame::shown_face_line))]
pub fn put_face(line: &mut Line, face: u32, a: u32, b: u32, c: u32)
    ensures { line.new ≡ shown_face_line face a b c }
{
    line.clear();
    line.add(b"f ");
    line.add_number(face);
    line.add(b" ");
    line.add_number(a);
    line.add(b" ");
    line.add_number(b);
    line.add(b" ");
    line.add_number(c);
    line.add(b"\n");
}

/// The last line of a frame.
#[tactic(auto, unfolding(crate::specs::Frame::end_line))]
pub(crate) fn put_end(line: &mut Line)
    ensures { line.new ≡ end_line }
{
    line.clear();
    line.add(b"end\n");
}

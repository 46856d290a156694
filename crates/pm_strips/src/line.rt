//! The pieces of a strip's line, and the last line.
ghost use Rattle.std.specs.Prelude.{◌≡◌, ◌+◌, ◌≤◌, true, ◌++◌, length};
ghost use Rattle.pm_base.specs.Sides.{face_of};
ghost use Rattle.pm_base.specs.Counts.{set_of};
ghost use Rattle.pm_strips.specs.Shown.{is_there, node_of_corner, node_text, count_line};
ghost use Rattle.pm_strips.specs.Texts.{first_text};

use crate::sides::next;
use pm_base::Side;
use pm_front::Front;
use pm_io::Line;

/// Adds the active node at a corner of a kept face.
#[tactic(auto, unfolding(crate::specs::Shown::node_text))]
pub(crate) fn add_node(line: &mut Line, front: &Front, corner: Side)
    requires there { is_there front.now.h (set_of front.now.flags) (face_of corner.0) ≡ true }
    requires room { length line.old + 11 ≤ 128 }
    ensures text { line.new ≡ line.old
        ++ node_text (node_of_corner front.now.h (set_of front.now.flags) corner.0) }
    ensures short { length line.new ≤ length line.old + 11 }
{
    let node = front.corner(corner.face(), corner.0 % 3);
    line.add(b" ");
    line.add_number(node.0);
}

/// The beginning of a strip's line: its first three nodes, from the side with which it begins.
#[tactic(auto, unfolding(crate::specs::Texts::first_text))]
pub(crate) fn put_first(line: &mut Line, front: &Front, first: Side)
    requires { is_there front.now.h (set_of front.now.flags) (face_of first.0) ≡ true }
    ensures { line.new ≡ first_text (node_of_corner front.now.h (set_of front.now.flags)) first.0 }
{
    let second = next(front, first);
    let third = next(front, second);
    line.clear();
    line.add(b"t");
    add_node(line, front, first);
    add_node(line, front, second);
    add_node(line, front, third);
}

/// The last line, with the number of strips.
#[tactic(auto, unfolding(crate::specs::Shown::count_line))]
pub(crate) fn put_count(line: &mut Line, strips: u32)
    ensures { line.new ≡ count_line strips }
{
    line.clear();
    line.add(b"strips ");
    line.add_number(strips);
    line.add(b"\n");
}

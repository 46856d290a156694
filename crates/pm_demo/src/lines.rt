//! The lines of a summary.
ghost use Rattle.std.specs.Prelude.{◌≡◌};
ghost use Rattle.pm_demo.specs.Summary.{grid_line, hierarchy_line, settled_line};

use pm_forest::Hierarchy;
use pm_format::stream_len;
use pm_io::Line;

/// How large a grid is.
#[tactic(auto, unfolding(crate::specs::Summary::grid_line))]
pub fn put_grid(line: &mut Line, n: u32, vertices: u32, faces: u32)
    ensures { line.new ≡ grid_line n vertices faces }
{
    line.clear();
    line.add(b"grid ");
    line.add_number(n);
    line.add(b" vertices ");
    line.add_number(vertices);
    line.add(b" faces ");
    line.add_number(faces);
    line.add(b"\n");
}

/// How large a hierarchy and its stream text are.
#[tactic(auto, unfolding(crate::specs::Summary::hierarchy_line))]
pub fn put_hierarchy(line: &mut Line, h: &Hierarchy)
    ensures { line.new ≡ hierarchy_line h.now }
{
    line.clear();
    line.add(b"roots ");
    line.add_number(h.roots());
    line.add(b" records ");
    line.add_number(h.records());
    line.add(b" base ");
    line.add_number(h.bases());
    line.add(b" bytes ");
    line.add_long_number(stream_len(h, 0));
    line.add(b"\n");
}

/// What a view gave.
#[tactic(auto, unfolding(crate::specs::Summary::settled_line))]
pub fn put_settled(line: &mut Line, i: u32, moves: u32, active: u32, kept: u32)
    ensures { line.new ≡ settled_line i moves active kept }
{
    line.clear();
    line.add(b"view ");
    line.add_number(i);
    line.add(b" settled ");
    line.add_number(moves);
    line.add(b" active ");
    line.add_number(active);
    line.add(b" kept ");
    line.add_number(kept);
    line.add(b"\n");
}

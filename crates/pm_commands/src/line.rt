//! The line that `check` writes.
ghost use Rattle.std.specs.Prelude.{◌≡◌};
ghost use Rattle.pm_commands.specs.Outcome.{counts_line};

use pm_forest::Hierarchy;
use pm_io::Line;

/// How large a hierarchy is.
#[tactic(auto, unfolding(crate::specs::Outcome::counts_line))]
pub fn put_counts(line: &mut Line, h: &Hierarchy)
    ensures { line.new ≡ counts_line h.now }
{
    line.clear();
    line.add(b"leaves ");
    line.add_number(h.leaves());
    line.add(b" roots ");
    line.add_number(h.roots());
    line.add(b" base ");
    line.add_number(h.bases());
    line.add(b" records ");
    line.add_number(h.records());
    line.add(b" faces ");
    line.add_number(h.faces());
    line.add(b"\n");
}

//! The level of detail that a front shows, and how it is told.
ghost use Rattle.std.specs.Prelude.{◌≡◌, true, length};
ghost use Rattle.pm_base.specs.Counts.{set_of};
ghost use Rattle.pm_front.specs.Shown.{active_nodes, kept_faces};
ghost use Rattle.pm_deviation.specs.Deviations.{AreMeasuresOf, has_deviations};
ghost use Rattle.pm_session.specs.Level.{split_count, greatest_error, greatest_deviation};
ghost use Rattle.pm_session.specs.Level.{level_line};

use pm_base::NodeId;
use pm_deviation::Measures;
use pm_front::Front;
use pm_io::Line;

/// The level of detail that a front shows: how many nodes and faces, how many records are split,
/// and the greatest error and the greatest deviation of a node, in units.
#[derive(Clone, Copy, Debug, PartialEq, Eq)]
pub struct Level {
    pub nodes: u32,
    pub faces: u32,
    pub split: u32,
    pub error: u64,
    pub deviation: u64,
}

// How many records are split.
#[tactic(auto, using(crate::proofs::LevelLaws::count_next, crate::proofs::LevelLaws::count_same))]
fn split_count(front: &Front) -> u32
    ensures { result ≡ split_count front.now.h (set_of front.now.flags) }
{
    let mut split = 0;
    for k in 0..front.hierarchy().records() {
        if front.is_split(k) {
            split += 1;
        }
    }
    split
}

// The greatest error of a node that is active.
#[tactic(auto, using(crate::proofs::LevelLaws::greatest_next, crate::proofs::LevelLaws::greatest_same))]
fn greatest_error(front: &Front, measures: &Measures) -> u64
    requires { AreMeasuresOf front.now.h measures.now }
    ensures { result ≡ greatest_error front.now.h (set_of front.now.flags) }
{
    let mut most = 0;
    let bounds = measures.bounds();
    for node in 0..front.hierarchy().nodes() {
        if front.is_active(NodeId(node)) {
            most = bounds.error(NodeId(node)).max(most);
        }
    }
    most
}

// The greatest deviation of a node that is active.
#[tactic(auto, using(crate::proofs::LevelLaws::greatest_next, crate::proofs::LevelLaws::greatest_same, crate::proofs::MeasureLaws::deviation_is))]
fn greatest_deviation(front: &Front, measures: &Measures) -> u64
    requires measures { AreMeasuresOf front.now.h measures.now }
    requires there { has_deviations measures.now ≡ true }
    ensures { result ≡ greatest_deviation front.now.h (set_of front.now.flags) }
{
    let mut most = 0;
    for node in 0..front.hierarchy().nodes() {
        if front.is_active(NodeId(node)) {
            most = measures.deviation(NodeId(node)).max(most);
        }
    }
    most
}

/// The level of detail that a front shows. A pass over all records and two over all nodes.
pub(crate) fn level_of(front: &Front, measures: &Measures) -> Level
    requires measures { AreMeasuresOf front.now.h measures.now }
    requires there { has_deviations measures.now ≡ true }
    ensures nodes { result.nodes ≡ length (active_nodes front.now.h (set_of front.now.flags)) }
    ensures faces { result.faces ≡ length (kept_faces front.now.h (set_of front.now.flags)) }
    ensures split { result.split ≡ split_count front.now.h (set_of front.now.flags) }
    ensures error { result.error ≡ greatest_error front.now.h (set_of front.now.flags) }
    ensures deviation { result.deviation ≡ greatest_deviation front.now.h (set_of front.now.flags) }
{
    Level {
        nodes: front.active_count(),
        faces: front.kept_count(),
        split: split_count(front),
        error: greatest_error(front, measures),
        deviation: greatest_deviation(front, measures),
    }
}

/// The line that replies to `l`.
#[tactic(auto, unfolding(crate::specs::Level::level_line))]
pub(crate) fn put_level(line: &mut Line, level: Level)
    ensures { line.new ≡ level_line level.nodes level.faces level.split level.error
        level.deviation }
{
    line.clear();
    line.add(b"level ");
    line.add_number(level.nodes);
    line.add(b" ");
    line.add_number(level.faces);
    line.add(b" ");
    line.add_number(level.split);
    line.add(b" ");
    line.add_long_number(level.error);
    line.add(b" ");
    line.add_long_number(level.deviation);
    line.add(b"\n");
}

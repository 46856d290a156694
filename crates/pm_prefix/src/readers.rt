//! What is read of a forest, though a record may be coming.
ghost use Rattle.std.specs.Prelude.{◌≡◌, ◌<◌, ◌≤◌, length};
ghost use Rattle.pm_base.specs.declared.limits.TheConstants.{MOST_FACES, MOST_VERTICES};
ghost use Rattle.pm_forest.specs.Forest.{node_count, interval_of};

use pm_forest::Growing;

/// How many roots there are.
pub fn roots(forest: &Growing) -> u32
    ensures value { result ≡ length forest.now.h.roots }
    ensures most { result ≤ MOST_VERTICES }
{
    forest.roots().len() as u32
}

/// How many base faces there are.
pub fn bases(forest: &Growing) -> u32
    ensures value { result ≡ length forest.now.h.bases }
    ensures most { result ≤ MOST_FACES }
{
    forest.bases().len() as u32
}

/// The leaves of a node: the first, and the first after.
pub fn interval(forest: &Growing, node: u32) -> (u32, u32)
    requires { node < node_count forest.now.h }
    ensures { interval_of forest.now.h node ≡ record { from = result.0; until = result.1 } }
{
    forest.interval(node)
}

//! How large a change is, and whether it fits into arrays.
ghost use Rattle.std.specs.Prelude.{◌≡◌, ◌≤◌, true, false, length};
ghost use Rattle.pm_base.specs.declared.limits.TheConstants.{MOST_NODES};
ghost use Rattle.pm_base.specs.Counts.{set_of};
ghost use Rattle.pm_change.specs.Arrays.{sizes_of_change, ChangeFits};
ghost use Rattle.pm_change.specs.Gathering.{size_of, HaveRoomFor};
ghost use Rattle.pm_change.specs.Storing.{change_in};

use crate::sets::ChangeSets;
use pm_front::Front;
use pm_sets::NumberSet;

/// How many entries each list of a change has.
#[derive(Clone, Copy, Debug, PartialEq, Eq)]
pub struct ChangeSizes {
    /// The faces and the nodes that are gone.
    pub gone_faces: u32,
    pub gone_nodes: u32,
    /// The nodes that are new, and the faces that are new or have another corner.
    pub new_nodes: u32,
    pub put_faces: u32,
}

// How many numbers a set has.
fn size(numbers: &NumberSet) -> u32
    requires { length numbers.now ≤ MOST_NODES }
    ensures { result ≡ size_of numbers.now }
{
    let mut count = 0;
    let mut from = 0;
    while let Some(number) = numbers.first_from(from) {
        count += 1;
        from = number + 1;
    }
    count
}

/// The sizes of the change whose numbers the sets have.
pub(crate) fn sizes_of_sets(front: &Front, sets: &ChangeSets) -> ChangeSizes
    requires { HaveRoomFor front.now.h sets.now }
    ensures { result ≡ sizes_of_change (change_in front.now.h (set_of front.now.flags) sets.now) }
{
    front.invariant();
    ChangeSizes {
        gone_faces: size(&sets.gone_faces),
        gone_nodes: size(&sets.gone_nodes),
        new_nodes: size(&sets.new_nodes),
        put_faces: size(&sets.put_faces),
    }
}

/// Whether a change of these sizes fits into arrays.
pub(crate) fn fits(
    sizes: &ChangeSizes,
    gone_faces: &[u32],
    gone_nodes: &[u32],
    new_nodes: &[u32],
    new_places: &[i32],
    put_faces: &[u32],
    put_corners: &[u32],
) -> bool
    ensures yes { result ≡ true → ChangeFits sizes.now (length gone_faces.now)
        (length gone_nodes.now) (length new_nodes.now) (length new_places.now)
        (length put_faces.now) (length put_corners.now) }
    ensures no { result ≡ false → ChangeFits sizes.now (length gone_faces.now)
        (length gone_nodes.now) (length new_nodes.now) (length new_places.now)
        (length put_faces.now) (length put_corners.now) → ⊥ }
{
    let n = sizes.new_nodes as usize;
    let p = sizes.put_faces as usize;
    if gone_faces.len() < sizes.gone_faces as usize
        || gone_nodes.len() < sizes.gone_nodes as usize
    {
        return false;
    }
    if new_nodes.len() < n || new_places.len() < 3 * n {
        return false;
    }
    if put_faces.len() < p || put_corners.len() < 3 * p {
        return false;
    }
    true
}

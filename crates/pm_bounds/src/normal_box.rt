//! Boxes of normals.
ghost use Rattle.std.specs.Prelude.{◌≡◌, ◌<◌, None, replicate, length, IfOk, slice_index_or};
ghost use Rattle.std.specs.Prelude.{unwrap_or};
ghost use Rattle.std.specs.Int.{int_min, int_max};
ghost use Rattle.pm_bounds.specs.Boxes.{join, zero_box};

use crate::OutOfMemory;
use pm_base::{NodeId, Normal};
use std::alloc::Global;

/// The normals whose numbers lie between those of `low` and those of `high`, on each axis.
#[derive(Clone, Copy, Debug, PartialEq, Eq)]
pub struct NormalBox {
    pub low: Normal,
    pub high: Normal,
}

// On each axis the lesser of two numbers.
fn lower(m: Normal, n: Normal) -> Normal
    ensures { result ≡ record { x = int_min m.x n.x; y = int_min m.y n.y; z = int_min m.z n.z } }
{
    Normal {
        x: m.x.min(n.x),
        y: m.y.min(n.y),
        z: m.z.min(n.z),
    }
}

// On each axis the greater of two numbers.
fn upper(m: Normal, n: Normal) -> Normal
    ensures { result ≡ record { x = int_max m.x n.x; y = int_max m.y n.y; z = int_max m.z n.z } }
{
    Normal {
        x: m.x.max(n.x),
        y: m.y.max(n.y),
        z: m.z.max(n.z),
    }
}

// The least box that has two others in it, one or both of which may be missing.
pub(crate) fn join(a: Option<NormalBox>, b: Option<NormalBox>) -> Option<NormalBox>
    ensures { result ≡ join a b }
{
    match (a, b) {
        (Some(a), Some(b)) => Some(NormalBox {
            low: lower(a.low, b.low),
            high: upper(a.high, b.high),
        }),
        (Some(a), None) => Some(a),
        (None, b) => b,
    }
}

// A box that may be missing, as its readers see it: from 0 to 0 where it is.
pub(crate) fn or_zero(a: Option<NormalBox>) -> NormalBox
    ensures { result ≡ unwrap_or a zero_box }
{
    let zero = Normal { x: 0, y: 0, z: 0 };
    a.unwrap_or(NormalBox {
        low: zero,
        high: zero,
    })
}

// As many missing boxes as there are nodes. The length is a parameter, so that no proof unfolds the
// list.
pub(crate) fn bare_boxes(alloc: Global, nodes: usize) -> Result<Vec<Option<NormalBox>>, OutOfMemory>
    ensures { IfOk result (λ boxes. boxes.items ≡ replicate nodes None) }
{
    vec![in alloc; None; nodes]
}

// The box of a node.
pub(crate) fn node_box(boxes: &[Option<NormalBox>], node: NodeId) -> Option<NormalBox>
    requires { node.0 < length boxes.now }
    ensures { result ≡ slice_index_or boxes.now node.0 None }
{
    boxes[node.0 as usize]
}

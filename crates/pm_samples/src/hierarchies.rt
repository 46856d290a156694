//! Small hierarchies.
use crate::units::{Unit, face, head, shaped};
use pm_forest::Hierarchy;
use std::alloc::Global;
use std::test::Fail;

/// An octahedron: a closed surface of four roots, four base faces and two vertex splits with two
/// new faces each.
pub fn octahedron(alloc: Global) -> Result<Hierarchy, Fail> {
    let units = [
        Unit::Root([0, -100, 0], 1, 4),
        Unit::Root([0, 0, -100], 1, 6),
        Unit::Root([50, 50, 0], 2, 0),
        Unit::Root([-50, 0, 50], 2, 0),
        Unit::Base(face(0, 2, 5, 4)),
        Unit::Base(face(4, 3, 1, 6)),
        Unit::Base(face(0, 4, 1, 7)),
        Unit::Base(face(2, 0, 1, 8)),
        Unit::Head(head(3, ([-100, 0, 0], 2), ([0, 0, 100], 5), 3)),
        Unit::Face(face(3, 4, 5, 2), 2, 4),
        Unit::Face(face(4, 0, 5, 3), 7, 3),
        Unit::Head(head(2, ([100, 0, 0], 1), ([0, 100, 0], 3), 3)),
        Unit::Face(face(2, 3, 5, 1), 15, 2),
        Unit::Face(face(3, 2, 1, 5), 12, 5),
    ];
    shaped(alloc, [6, 4, 4, 2], &units)
}

/// Three roots and a split that brings in the only face, at which no neighbour is recorded.
pub fn lone_face(alloc: Global) -> Result<Hierarchy, Fail> {
    let units = [
        Unit::Root([10, 0, 0], 1, 1),
        Unit::Root([0, 10, 0], 1, 2),
        Unit::Root([0, 0, 0], 2, 0),
        Unit::Head(head(2, ([0, 0, 0], 3), ([20, 20, 0], 4), 1)),
        Unit::Face(face(2, 3, 0, 1), 0, 0),
    ];
    shaped(alloc, [4, 3, 0, 1], &units)
}

//! Small meshes.
ghost use Rattle.std.specs.Prelude.{◌≡◌, ◌≤◌, length, IfOk};
ghost use Rattle.std.specs.List.{All};
ghost use Rattle.pm_base.specs.declared.limits.TheConstants.{MOST_FACES, MOST_VERTICES};
ghost use Rattle.pm_base.specs.Meshes.{mesh_of, IsFace, IsWellFormed};

use pm_base::{Corners, Mesh, Point, Points, Triples};
use std::alloc::Global;
use std::test::Fail;

/// The coordinates of a point.
pub type Spot = (i32, i32, i32);

/// The corners of a face.
pub type Triple = (u32, u32, u32);

pub const OCTAHEDRON: [Spot; 6] = [
    (100, 0, 0),
    (-100, 0, 0),
    (0, 100, 0),
    (0, -100, 0),
    (0, 0, 100),
    (0, 0, -100),
];

pub const OCTAHEDRON_FACES: [Triple; 8] = [
    (0, 2, 4),
    (2, 1, 4),
    (1, 3, 4),
    (3, 0, 4),
    (2, 0, 5),
    (1, 2, 5),
    (3, 1, 5),
    (0, 3, 5),
];

pub fn point(spot: Spot) -> Result<Point, Fail> {
    match Point::new(spot.0, spot.1, spot.2) {
        Some(point) => Ok(point),
        None => Err(Fail::new("this is no place")),
    }
}

// The faces over so many points.
fn triples(alloc: Global, count: u32, faces: &[Triple]) -> Result<Triples, Fail>
    ensures faces { IfOk result (λ list. length list.items ≡ length faces.now) }
    ensures corners { IfOk result (λ list. All (IsFace count) list.items) }
{
    let mut triples = Triples::new(alloc);
    for &(a, b, c) in faces {
        if a >= count || b >= count || c >= count || a == b || b == c || c == a {
            return Err(Fail::new("this is no face"));
        }
        triples.push(Corners { a, b, c })?;
    }
    Ok(triples)
}

/// The mesh of these points and faces.
pub fn mesh(alloc: Global, spots: &[Spot], faces: &[Triple]) -> Result<Mesh, Fail>
    requires few { length spots.now ≤ MOST_VERTICES }
    requires short { length faces.now ≤ MOST_FACES }
    ensures formed { IfOk result (λ m. IsWellFormed (mesh_of m)) }
{
    let mut points = Points::new(alloc);
    for &spot in spots {
        points.push(point(spot)?)?;
    }
    let faces = triples(alloc, spots.len() as u32, faces)?;
    Ok(Mesh { points, faces })
}

/// The mesh of so many points, all at one place, and these faces.
pub fn at_origin(alloc: Global, count: u32, faces: &[Triple]) -> Result<Mesh, Fail>
    requires few { count ≤ MOST_VERTICES }
    requires short { length faces.now ≤ MOST_FACES }
    ensures formed { IfOk result (λ m. IsWellFormed (mesh_of m)) }
    ensures points { IfOk result (λ m. length m.points.items ≡ count) }
    ensures faces { IfOk result (λ m. length m.faces.items ≡ length faces.now) }
{
    let origin = point((0, 0, 0))?;
    let mut points = Points::new(alloc);
    for _point in 0..count {
        points.push(origin)?;
    }
    let faces = triples(alloc, count, faces)?;
    Ok(Mesh { points, faces })
}

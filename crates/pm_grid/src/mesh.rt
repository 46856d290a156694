//! Grids of cells as meshes.
ghost use Rattle.std.specs.Prelude.{◌≡◌, ◌+◌, ◌*◌, ◌<◌, ◌≤◌, ◌++◌, IfOk, OnOk};
ghost use Rattle.pm_base.specs.Meshes.{mesh_of};
ghost use Rattle.pm_grid.specs.Grid.{grid as grid_of, point_row, face_row};

use crate::OutOfMemory;
use pm_base::{Corners, Mesh, Point, Points, Triples};
use std::alloc::Global;

/// The grid of n times n cells, n from 1 to 256: (n + 1) (n + 1) points, row by row, and two faces
/// a cell. Columns and rows are 100 apart, along x and along y, and heights are from 0 to 96.
///
/// Time and memory are linear in the number of cells.
pub fn grid(alloc: Global, n: u32) -> Result<Mesh, OutOfMemory>
    requires some { 1 ≤ n }
    requires most { n ≤ 256 }
    ensures { IfOk result (λ m. mesh_of m ≡ grid_of n) }
{
    let mut points = Points::new(alloc);
    for row in 0..n + 1 {
        add_points(&mut points, n, row)?;
    }
    let mut faces = Triples::new(alloc);
    for cell_row in 0..n {
        add_faces(&mut faces, n, cell_row)?;
    }
    Ok(Mesh { points, faces })
}

// Adds the points of row r.
fn add_points(points: &mut Points, n: u32, r: u32) -> Result<(), OutOfMemory>
    requires most { n ≤ 256 }
    requires row { r ≤ n }
    ensures { OnOk result (points.new.items ≡ points.old.items ++ point_row n r) }
{
    for c in 0..n + 1 {
        let height = (7 * (c * c) + 11 * (c * r) + 13 * (r * r)) % 97;
        let Some(point) = Point::new((100 * c) as i32, (100 * r) as i32, height as i32) else {
            unreachable!()
        };
        points.push(point)?;
    }
    Ok(())
}

// Adds the faces of the cells in row r.
fn add_faces(faces: &mut Triples, n: u32, r: u32) -> Result<(), OutOfMemory>
    requires most { n ≤ 256 }
    requires row { r < n }
    ensures { OnOk result (faces.new.items ≡ faces.old.items ++ face_row n r) }
{
    let low = r * (n + 1);
    let high = (r + 1) * (n + 1);
    for c in 0..n {
        faces.push(Corners {
            a: low + c,
            b: low + (c + 1),
            c: high + (c + 1),
        })?;
        faces.push(Corners {
            a: low + c,
            b: high + (c + 1),
            c: high + c,
        })?;
    }
    Ok(())
}

//! Tests of pm_grid.
use pm_base::{Corners, Mesh};
use pm_grid::grid;
use pm_samples::point;
use std::alloc::Global;
use std::test::Fail;

// Whether these are the four points of one cell.
fn has_points(mesh: &Mesh) -> Result<bool, Fail> {
    let expected = [
        point((0, 0, 0))?,
        point((100, 0, 7))?,
        point((0, 100, 13))?,
        point((100, 100, 31))?,
    ];
    Ok(mesh.points.as_slice() == expected.as_slice())
}

// Whether these are the two faces of one cell.
fn has_faces(mesh: &Mesh) -> bool {
    let expected = [Corners { a: 0, b: 1, c: 3 }, Corners { a: 0, b: 3, c: 2 }];
    mesh.faces.as_slice() == expected.as_slice()
}

fn one_cell_is_made(alloc: Global) -> Result<bool, Fail> {
    let mesh = grid(alloc, 1)?;
    Ok(has_points(&mesh)? && has_faces(&mesh))
}

#[test]
fn one_cell_has_four_points_and_two_faces(rt: HostRuntime) -> Result<(), Fail> {
    assert!(rt; one_cell_is_made(rt.alloc())?);
    Ok(())
}

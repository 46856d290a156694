//! Tests of pm_twins.
ghost use Rattle.std.specs.Prelude.{◌≡◌, ◌≤◌, length};

use pm_base::Side;
use pm_samples::{OCTAHEDRON_FACES, at_origin};
use pm_twins::{Twins, check_fans};
use std::alloc::Global;
use std::test::Fail;

// Whether the sides of eight faces have these twins.
fn are_twins(twins: &Twins, expected: &[u32; 24]) -> bool
    requires { length twins.now.twins ≡ 24 }
{
    for side in 0..24 {
        if twins.twin(Side(side)) != Some(Side(expected[side as usize])) {
            return false;
        }
    }
    true
}

// Which of the first five vertices are at a border.
fn borders(twins: &Twins) -> [bool; 5]
    requires { 5 ≤ length twins.now.border }
{
    let mut borders = [false; 5];
    for vertex in 0..5 {
        borders[vertex as usize] = twins.is_border(vertex);
    }
    borders
}

fn octahedron_is_paired(alloc: Global) -> Result<bool, Fail> {
    let octahedron = at_origin(alloc, 6, &OCTAHEDRON_FACES)?;
    let twins = Twins::of(alloc, &octahedron)?;
    check_fans(alloc, &octahedron, &twins)?;
    let expected: [u32; 24] = [
        12, 5, 10, 15, 8, 1, 18, 11, 4, 21, 2, 7, 0, 23, 16, 3, 14, 19, 6, 17, 22, 9, 20, 13,
    ];
    Ok(are_twins(&twins, &expected) && borders(&twins) == [false; 5])
}

#[test]
fn sides_of_the_octahedron_are_paired(rt: HostRuntime) -> Result<(), Fail> {
    assert!(rt; octahedron_is_paired(rt.alloc())?);
    Ok(())
}

// Whether a side between the two faces of a square has the other's side as its twin, and one at
// the border has none.
fn is_square_paired(twins: &Twins) -> bool
    requires { length twins.now.twins ≡ 6 }
{
    twins.twin(Side(2)) == Some(Side(3)) && twins.twin(Side(4)) == None
}

fn square_has_its_border(alloc: Global) -> Result<bool, Fail> {
    let square = at_origin(alloc, 5, &[(0, 1, 2), (0, 2, 3)])?;
    let twins = Twins::of(alloc, &square)?;
    check_fans(alloc, &square, &twins)?;
    let are_borders = borders(&twins) == [true, true, true, true, false];
    Ok(is_square_paired(&twins) && are_borders)
}

#[test]
fn border_of_a_square_and_a_point_apart(rt: HostRuntime) -> Result<(), Fail> {
    assert!(rt; square_has_its_border(rt.alloc())?);
    Ok(())
}

//! Tests of pm_fits.
use pm_fits::{FitFault, fits_by_channel};
use pm_forest::Hierarchy;
use pm_samples::{Unit, face, head, shaped};
use std::alloc::Global;
use std::test::Fail;

// A square of two faces, and a vertex without faces. Node 2, which stands at a place along x, has
// the leaves of the first two vertices, at 0 and at 10.
fn square(alloc: Global, x: i32) -> Result<Hierarchy, Fail> {
    let units = [
        Unit::Root([0, 10, 0], 1, 3),
        Unit::Root([10, 10, 0], 1, 4),
        Unit::Root([x, 0, 0], 2, 0),
        Unit::Root([7, 7, 7], 1, 5),
        Unit::Base(face(2, 1, 0, 2)),
        Unit::Head(head(2, ([0, 0, 0], 1), ([10, 0, 0], 2), 1)),
        Unit::Face(face(2, 3, 1, 1), 0, 1),
    ];
    shaped(alloc, [5, 4, 1, 1], &units)
}

// The fits of the six nodes, two for each, where the second numbers of the first two vertices are
// the same.
fn fits(alloc: Global, x: i32) -> Result<[i32; 12], Fail> {
    let h = square(alloc, x)?;
    let values = [100, 5, 300, 5, 7, 70, 8, 80, 9, -90];
    let Ok(all) = fits_by_channel(alloc, &h, 2, &values) else {
        return Err(Fail::new("there are no fits"));
    };
    let mut first = [0; 12];
    for i in 0..all.len().min(12) {
        first[i] = all[i];
    }
    Ok(first)
}

// The slope is 2,000 / 101, from the middle at 5.
#[test]
fn fits_follow_the_place(rt: HostRuntime) -> Result<(), Fail> {
    assert!(rt; fits(rt.alloc(), 0)? == [7, 70, 8, 80, 101, 5, 9, -90, 100, 5, 300, 5]);
    assert!(rt; fits(rt.alloc(), 6)? == [7, 70, 8, 80, 220, 5, 9, -90, 100, 5, 300, 5]);
    Ok(())
}

#[test]
fn fits_stay_within_the_numbers_of_the_leaves(rt: HostRuntime) -> Result<(), Fail> {
    assert!(rt; fits(rt.alloc(), -10)? == [7, 70, 8, 80, 100, 5, 9, -90, 100, 5, 300, 5]);
    assert!(rt; fits(rt.alloc(), 90)? == [7, 70, 8, 80, 300, 5, 9, -90, 100, 5, 300, 5]);
    Ok(())
}

// Whether numbers are refused for this fault.
fn are_refused(alloc: Global, h: &Hierarchy, values: &[i32], fault: FitFault) -> bool {
    match fits_by_channel(alloc, h, 1, values) {
        Ok(_) => false,
        Err(found) => found == fault,
    }
}

fn refusals(alloc: Global) -> Result<bool, Fail> {
    let h = square(alloc, 0)?;
    let few = are_refused(alloc, &h, &[0, 0, 0, 0], FitFault::Count);
    let great = are_refused(alloc, &h, &[0, 0, 2_097_153, 0, 0], FitFault::Number);
    let low = are_refused(alloc, &h, &[0, 0, 0, 0, -2_097_153], FitFault::Number);
    Ok(few && great && low)
}

#[test]
fn numbers_that_do_not_serve_are_refused(rt: HostRuntime) -> Result<(), Fail> {
    assert!(rt; refusals(rt.alloc())?);
    Ok(())
}

//! Tests of pm_view.
use arrayvec::ArrayVec;
use pm_view::{Plane, View};

// A list of one plane.
fn plane(a: i32, d: i64) -> ArrayVec<Plane, 6> {
    let mut planes: ArrayVec<Plane, 6> = ArrayVec::new();
    planes.push(Plane { a, b: 0, c: 0, d });
    planes
}

// Whether there is a view by these numbers, with the eye at two coordinates.
fn is_view(ex: i32, ey: i32, focal: u32, tol: u32, sil: u32) -> bool {
    View::new(ex, ey, 16_777_215, focal, tol, sil, ArrayVec::new()).is_some()
}

// Whether there is a view with one plane.
fn is_view_with(a: i32, d: i64) -> bool {
    View::new(-16_777_215, 0, 0, 65_535, 65_535, 65_535, plane(a, d)).is_some()
}

#[test]
fn numbers_out_of_range(rt: HostRuntime) {
    assert!(rt; is_view(-16_777_215, 0, 65_535, 65_535, 65_535));
    let over = [
        is_view(0, 16_777_216, 1, 1, 1),
        is_view(0, 0, 65_536, 1, 1),
        is_view(0, 0, 1, 65_536, 1),
        is_view(0, 0, 1, 5, 6),
    ];
    assert!(rt; over == [false; 4]);
    let with_planes = [
        is_view_with(-32_767, 1),
        is_view_with(32_768, 1),
        is_view_with(0, -4_398_046_511_105),
    ];
    assert!(rt; with_planes == [true, false, false]);
}

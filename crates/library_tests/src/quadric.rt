//! Tests of pm_quadric.
ghost use Rattle.std.specs.Prelude.{◌≡◌, IfOk};

use pm_base::Point;
use pm_quadric::{Quadric, best_place};
use pm_samples::{Spot, point};
use std::test::Fail;

type Vector = (i128, i128, i128);

// The quadric of the plane of a face.
fn of_face(a: Spot, b: Spot, c: Spot) -> Result<Quadric, Fail>
    ensures { IfOk result (λ q. q.count ≡ 1) }
{
    Ok(Quadric::of_face(point(a)?, point(b)?, point(c)?))
}

// The quadric of the plane of height 0, from a face of twice the area 100.
fn ground() -> Result<Quadric, Fail>
    ensures { IfOk result (λ q. q.count ≡ 1) }
{
    of_face((0, 0, 0), (10, 0, 0), (0, 10, 0))
}

#[test]
fn values_of_planes(rt: HostRuntime) -> Result<(), Fail> {
    let q = ground()?;
    let p = point((3, 4, 5))?;
    let none = Quadric::zero();
    let twice = q.plus(&q);
    assert!(rt; [none.planes(), q.planes(), twice.planes()] == [0, 1, 2]);
    assert!(rt; [none.value(p), q.value(p), twice.value(p)] == [0, 250_000, 500_000]);
    Ok(())
}

// The best place between two heights above the ground, and its value there.
fn best(t: i32, u: i32) -> Result<(Point, u128), Fail> {
    let q = ground()?;
    Ok(best_place(&q, point((0, 0, t))?, point((0, 0, u))?))
}

#[test]
fn best_places_are_found(rt: HostRuntime) -> Result<(), Fail> {
    let (low, high) = (point((0, 0, 0))?, point((0, 0, 1))?);
    assert!(rt; best(2, -1)? == (low, 0));
    assert!(rt; best(1, 0)? == (low, 0));
    assert!(rt; best(1, -2)? == (high, 10_000));
    Ok(())
}

fn limit(bit: u32) -> i32 {
    if bit == 0 { -32_767 } else { 32_767 }
}

// A corner of the whole grid: the last three bits of k choose one of the two limits on each axis.
fn corner(k: u32) -> Spot {
    (limit(k & 1), limit(k & 2), limit(k & 4))
}

// The way from one place to another.
fn way(p: Spot, q: Spot) -> Vector {
    (
        i128::from(q.0).saturating_sub(i128::from(p.0)),
        i128::from(q.1).saturating_sub(i128::from(p.1)),
        i128::from(q.2).saturating_sub(i128::from(p.2)),
    )
}

fn minor(a: i128, b: i128, c: i128, d: i128) -> i128 {
    a.saturating_mul(d).saturating_sub(b.saturating_mul(c))
}

// The square of the value at p of the plane of a, b and c: of the determinant of the three ways
// from a. It is written without the crate's own functions. 128 bits do: a step that left them would
// stay at their limit, which is no value of a plane.
fn plain_square(a: Spot, b: Spot, c: Spot, p: Spot) -> u128 {
    let (u, v, w) = (way(a, b), way(a, c), way(a, p));
    let x = minor(u.1, u.2, v.1, v.2).saturating_mul(w.0);
    let y = minor(u.0, u.2, v.0, v.2).saturating_mul(w.1);
    let z = minor(u.0, u.1, v.0, v.1).saturating_mul(w.2);
    let value = x.saturating_sub(y).saturating_add(z);
    value.saturating_mul(value).unsigned_abs()
}

// The corners of a face, by three bits each.
fn corners(face: u32) -> [Spot; 3] {
    [corner(face), corner(face >> 3), corner(face >> 6)]
}

// The squares of the values of the face's plane at the corners of the grid.
fn squares(face: u32) -> [u128; 8] {
    let [a, b, c] = corners(face);
    let mut squares = [0u128; 8];
    for k in 0..8 {
        squares[k as usize] = plain_square(a, b, c, corner(k));
    }
    squares
}

// The values of a quadric at the corners of the grid.
fn values(q: &Quadric) -> Result<[u128; 8], Fail> {
    let mut values = [0u128; 8];
    for k in 0..8 {
        values[k as usize] = q.value(point(corner(k))?);
    }
    Ok(values)
}

fn add(sums: &mut [u128; 8], squares: &[u128; 8]) {
    for k in 0..8 {
        sums[k] = sums[k].saturating_add(squares[k]);
    }
}

#[test]
fn corners_of_the_grid_agree_with_the_planes(rt: HostRuntime) -> Result<(), Fail> {
    let mut all = Quadric::zero();
    let mut sums = [0u128; 8];
    for face in 0..512 {
        let [a, b, c] = corners(face);
        let q = of_face(a, b, c)?;
        let squares = squares(face);
        assert!(rt; values(&q)? == squares, "face {face}");
        assert!(rt; all.planes() < 512);
        all = all.plus(&q);
        add(&mut sums, &squares);
    }
    assert!(rt; values(&all)? == sums);
    Ok(())
}

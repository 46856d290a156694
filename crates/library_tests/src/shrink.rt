//! Tests of pm_shrink.
ghost use Rattle.std.specs.Prelude.{◌≤◌, length};
ghost use Rattle.pm_base.specs.declared.limits.TheConstants.{MOST_FACES, MOST_VERTICES};

use pm_base::{Collapse, FaceId, Gone, Point, Side};
use pm_samples::{OCTAHEDRON, OCTAHEDRON_FACES, Spot, Triple, mesh, point};
use pm_shrink::Shrink;
use pm_twins::{Twins, check_fans};
use std::alloc::Global;
use std::test::Fail;

fn shrink_of(alloc: Global, places: &[Spot], faces: &[Triple]) -> Result<Shrink, Fail>
    requires few { length places.now ≤ MOST_VERTICES }
    requires short { length faces.now ≤ MOST_FACES }
{
    let mesh = mesh(alloc, places, faces)?;
    let twins = Twins::of(alloc, &mesh)?;
    check_fans(alloc, &mesh, &twins)?;
    Ok(Shrink::new(alloc, mesh, twins)?)
}

// Collapses two live vertices, the lesser number first, where that is legal at the place.
fn try_collapse(shrink: &mut Shrink, a: u32, b: u32, place: Point) -> Option<Collapse> {
    if !shrink.is_live(a) || !shrink.is_live(b) || a >= b {
        return None;
    }
    if !shrink.pair_legal(a, b, place) {
        return None;
    }
    Some(shrink.collapse(a, b, place))
}

// The collapse of vertices 0 and 2 of the octahedron.
fn first_collapse(place: Point) -> Collapse {
    Collapse {
        t: 0,
        u: 2,
        s: 6,
        place,
        left: Some(Gone {
            face: FaceId(0),
            first: Some(Side(5)),
            second: Some(Side(10)),
        }),
        right: Some(Gone {
            face: FaceId(4),
            first: Some(Side(23)),
            second: Some(Side(16)),
        }),
    }
}

// Which of the first nine vertices are live.
fn live(shrink: &Shrink) -> [bool; 9] {
    let mut live = [false; 9];
    for vertex in 0..9 {
        live[vertex as usize] = shrink.is_live(vertex);
    }
    live
}

// Whether the octahedron's vertices that are live stand where they stood.
fn keeps_places(shrink: &Shrink) -> bool {
    for vertex in 0..6 {
        let (x, y, z) = OCTAHEDRON[vertex as usize];
        if shrink.is_live(vertex) && Some(shrink.place(vertex)) != Point::new(x, y, z) {
            return false;
        }
    }
    true
}

fn is_collapsed(shrink: &Shrink) -> bool {
    let are_live = live(shrink) == [false, true, false, true, true, true, true, false, false];
    shrink.face_count() == 6 && shrink.next_vertex() == 7 && are_live && keeps_places(shrink)
}

// Whether the octahedron's vertices 0 and 1, which are live and not joined, can't be collapsed, and
// 0 and 2 can.
fn collapses_first(shrink: &mut Shrink, origin: Point, middle: Point) -> bool {
    let are_live = shrink.is_live(0) && shrink.is_live(1);
    let refused = try_collapse(shrink, 0, 1, origin).is_none();
    let is_first = try_collapse(shrink, 0, 2, middle) == Some(first_collapse(middle));
    are_live && refused && is_first
}

fn octahedron_is_collapsed(alloc: Global) -> Result<bool, Fail> {
    let origin = point((0, 0, 0))?;
    let middle = point((50, 50, 0))?;
    let mut shrink = shrink_of(alloc, &OCTAHEDRON, &OCTAHEDRON_FACES)?;
    Ok(collapses_first(&mut shrink, origin, middle) && is_collapsed(&shrink))
}

#[test]
fn first_collapse_of_the_octahedron(rt: HostRuntime) -> Result<(), Fail> {
    assert!(rt; octahedron_is_collapsed(rt.alloc())?);
    Ok(())
}

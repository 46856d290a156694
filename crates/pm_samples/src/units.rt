//! A hierarchy by its units.
use pm_forest::{Face, Head, Hierarchy, Shaper, UnitKind};
use std::alloc::Global;
use std::test::Fail;

/// A unit of a hierarchy, as a stream has it.
#[derive(Clone, Copy)]
pub enum Unit {
    Root([i32; 3], u32, u32),
    Base(Face),
    Head(Head),
    Face(Face, u32, u32),
}

pub fn face(a: u32, b: u32, c: u32, input: u32) -> Face {
    Face { a, b, c, input }
}

/// The head of a record with places and input numbers of both children, of which the first has one
/// leaf.
pub fn head(s: u32, t: ([i32; 3], u32), u: ([i32; 3], u32), presence: u32) -> Head {
    let (t, t_input) = t;
    let (u, u_input) = u;
    Head {
        s,
        width: 1,
        t,
        t_input,
        u,
        u_input,
        presence,
    }
}

// Takes a unit in, where it is the turn of its kind.
fn take(shaper: &mut Shaper, unit: Unit) -> Option<()> {
    match (shaper.expects(), unit) {
        (UnitKind::Root, Unit::Root(place, width, input)) => {
            shaper.add_root(place, width, input).ok()
        }
        (UnitKind::Base, Unit::Base(face)) => shaper.add_base(face).ok(),
        (UnitKind::Head, Unit::Head(head)) => shaper.add_head(head).ok(),
        (UnitKind::LeftFace | UnitKind::RightFace, Unit::Face(face, first, second)) => {
            shaper.add_face(face, first, second).ok()
        }
        _ => None,
    }
}

/// The hierarchy with these counts of leaves, roots, base faces and records, and with these units.
pub fn shaped(alloc: Global, counts: [u32; 4], units: &[Unit]) -> Result<Hierarchy, Fail> {
    let [leaves, roots, bases, records] = counts;
    let Ok(mut shaper) = Shaper::new(alloc, leaves, roots, bases, records) else {
        return Err(Fail::new("the counts are refused"));
    };
    for unit in units {
        if take(&mut shaper, *unit).is_none() {
            return Err(Fail::new("a unit is refused"));
        }
    }
    if shaper.expects() != UnitKind::Nothing {
        return Err(Fail::new("a unit is missing"));
    }
    shaper
        .done()
        .map_err(|_| Fail::new("an input number is refused"))
}

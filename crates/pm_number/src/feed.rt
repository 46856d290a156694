//! Hands the units of the hierarchy of a run to a shaper. It refuses none of them, as each passes
//! the rules of shape.
ghost use Rattle.std.specs.Prelude.{◌≡◌, IfOk, IfSome, length};
ghost use Rattle.pm_forest.specs.Shaping.{nothing_in};
ghost use Rattle.pm_forest.specs.Rules.{counts_of, HasShape};
ghost use Rattle.pm_number.specs.Numbering.{numbered_gone};
ghost use Rattle.pm_number.specs.Tables.{AreNumbers, run_by, hierarchy_by, took_roots};
ghost use Rattle.pm_number.specs.Tables.{took_bases, took_records, IsAmong, IsDue, with_due};

use crate::OutOfMemory;
use crate::tables::Numbers;
use pm_base::Gone;
use pm_forest::{Hierarchy, Shape, Shaper};
use std::alloc::Global;

/// The hierarchy of a run, from its numbers.
pub fn hierarchy(alloc: Global, numbers: &Numbers) -> Result<Hierarchy, OutOfMemory>
    requires { AreNumbers numbers.now }
    ensures value { IfOk result (λ h. h ≡ hierarchy_by numbers.now) }
    ensures shape { IfOk result HasShape }
{
    let mut shaper = shaper(alloc, numbers)?;
    add_roots(&mut shaper, numbers);
    add_bases(&mut shaper, numbers);
    add_records(&mut shaper, numbers);
    let Ok(hierarchy) = shaper.done() else {
        unreachable!()
    };
    hierarchy.invariant();
    Ok(hierarchy)
}

// A shaper that has the counts of the hierarchy, which pass their rule.
fn shaper(alloc: Global, numbers: &Numbers) -> Result<Shaper, OutOfMemory>
    requires { AreNumbers numbers.now }
    ensures { IfOk result (λ s. s ≡ nothing_in (counts_of (hierarchy_by numbers.now))) }
{
    let leaves = numbers.run.mesh.points.len() as u32;
    let roots = numbers.left.len() as u32;
    let bases = numbers.bases.len() as u32;
    let records = numbers.run.log.len() as u32;
    match Shaper::new(alloc, leaves, roots, bases, records) {
        Ok(shaper) => Ok(shaper),
        Err(Shape::BadCount) => unreachable!(),
        Err(_) => Err(std::alloc::AllocError),
    }
}

// All roots.
fn add_roots(shaper: &mut Shaper, numbers: &Numbers)
    requires numbers { AreNumbers numbers.now }
    requires before { shaper.old ≡ nothing_in (counts_of (hierarchy_by numbers.now)) }
    ensures { let h = hierarchy_by numbers.now in shaper.new ≡ took_roots h (length h.roots) }
{
    for i in 0..numbers.left.len() {
        let (place, width, input) = numbers.root(i);
        let Ok(()) = shaper.add_root(place, width, input) else {
            unreachable!()
        };
    }
}

// All base faces.
fn add_bases(shaper: &mut Shaper, numbers: &Numbers)
    requires numbers { AreNumbers numbers.now }
    requires before { shaper.old ≡ took_bases (hierarchy_by numbers.now) 0 }
    ensures { let h = hierarchy_by numbers.now in shaper.new ≡ took_bases h (length h.bases) }
{
    for i in 0..numbers.bases.len() {
        let Ok(()) = shaper.add_base(numbers.base(i)) else {
            unreachable!()
        };
    }
}

// All records: the collapses in reverse order.
fn add_records(shaper: &mut Shaper, numbers: &Numbers)
    requires numbers { AreNumbers numbers.now }
    requires before { shaper.old ≡ took_records (hierarchy_by numbers.now) 0 }
    ensures { shaper.new
        ≡ took_records (hierarchy_by numbers.now) (length numbers.now.run.log.now) }
{
    for k in 0..numbers.run.log.len() {
        let collapse = numbers.run.step(k);
        let Ok(()) = shaper.add_head(numbers.head(k)) else {
            unreachable!()
        };
        add_gone(shaper, numbers, &collapse.left);
        add_gone(shaper, numbers, &collapse.right);
    }
}

// A face that a collapse drops, where it does.
fn add_gone(shaper: &mut Shaper, numbers: &Numbers, gone: &Option<Gone>)
    requires numbers { AreNumbers numbers.now }
    requires inside { IfSome gone.now (IsAmong (run_by numbers.now).net.faces) }
    requires due { IfSome (numbered_gone (run_by numbers.now) gone.now) (IsDue shaper.old) }
    ensures { shaper.new ≡ with_due shaper.old (numbered_gone (run_by numbers.now) gone.now) }
{
    if let Some(gone) = gone {
        let face = numbers.face(gone.face);
        let first = numbers.word(gone.first);
        let second = numbers.word(gone.second);
        let Ok(()) = shaper.add_face(face, first, second) else {
            unreachable!()
        };
    }
}

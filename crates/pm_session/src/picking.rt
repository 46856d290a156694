//! Picks for a script, and how they are told.
ghost use Rattle.std.specs.Prelude.{◌≡◌, ◌<◌};
ghost use Rattle.pm_io.specs.Puts.{Puts};
ghost use Rattle.pm_bounds.specs.Bounds.{AreBoundsOf};
ghost use Rattle.pm_pick.specs.Lists.{AreListsOf};
ghost use Rattle.pm_pick.specs.Picks.{pick_of};
ghost use Rattle.pm_session.specs.Script.{pick_reply};

use crate::reply::put_hit;
use pm_bounds::Bounds;
use pm_forest::Hierarchy;
use pm_io::{Line, Sink, WriteFault, put_all};
use pm_pick::{Hit, Picker, Ray};
use pm_view::Steps;
use std::sync::ledger::{Blank, Ledger};

// The face that a ray hits first, where nobody counts the steps.
pub(crate) fn pick_face<L: Ledger>(
    picker: &Picker,
    h: &Hierarchy,
    bounds: &Bounds,
    ray: &Ray,
    blank: Blank,
) -> Option<Hit>
    requires lists { AreListsOf h.now picker.now }
    requires bounds { AreBoundsOf h.now bounds.now }
    requires name { blank.name ≡ L.name }
    requires parts { blank.parts ≡ L.parts }
    requires some { 0 < L.parts }
    ensures { result ≡ pick_of h.now ray.now }
{
    let mut steps: Steps<L> = Steps::new(blank);
    picker.pick(h, bounds, ray, &mut steps)
}

// Puts the reply to a ray.
pub(crate) fn put_pick<K: Sink>(hit: Option<Hit>, out: &mut K) -> Result<(), WriteFault>
    ensures { Puts K.Sink out.old out.new (pick_reply hit) result }
{
    let mut line = Line::new();
    put_hit(&mut line, hit);
    put_all(out, line.as_slice())
}

//! Hands the units of the first records to a shaper. It refuses none of them, as they have the
//! right shape.
ghost use Rattle.std.specs.Prelude.{◌≡◌, ◌+◌, ◌<◌, IfOk, IfSome, is_some, length};
ghost use Rattle.pm_forest.specs.Shaping.{nothing_in};
ghost use Rattle.pm_base.specs.Counts.{one_if};
ghost use Rattle.pm_base.specs.declared.limits.TheConstants.{MOST_SIDES};
ghost use Rattle.pm_forest.specs.Rules.{counts_of};
ghost use Rattle.pm_prefix.specs.Prefix.{new_face_in};
ghost use Rattle.pm_prefix.specs.Tables.{whole, hierarchy_by, IsPrefix, IsNew, IsDue, with_due};
ghost use Rattle.pm_prefix.specs.Tables.{took_roots, took_bases, took_records};

use crate::OutOfMemory;
use crate::readers::{bases, roots};
use crate::units::{Prefix, word_of};
use pm_forest::{Hierarchy, NewFace, Shape, Shaper};
use std::alloc::Global;

impl Prefix<'_> {
    /// The hierarchy of these records.
    pub fn hierarchy(&self, alloc: Global) -> Result<Hierarchy, OutOfMemory>
        requires { IsPrefix self.now }
        ensures { IfOk result (λ h. h ≡ hierarchy_by self.now) }
    {
        let mut shaper = self.shaper(alloc)?;
        self.add_roots(&mut shaper);
        self.add_bases(&mut shaper);
        self.add_records(&mut shaper);
        let Ok(hierarchy) = shaper.done() else {
            unreachable!()
        };
        Ok(hierarchy)
    }

    // A shaper that has the counts of the hierarchy, which pass their rule.
    fn shaper(&self, alloc: Global) -> Result<Shaper, OutOfMemory>
        requires { IsPrefix self.now }
        ensures { IfOk result (λ s. s ≡ nothing_in (counts_of (hierarchy_by self.now))) }
    {
        let roots = roots(self.forest);
        match Shaper::new(alloc, roots + self.n, roots, bases(self.forest), self.n) {
            Ok(shaper) => Ok(shaper),
            Err(Shape::BadCount) => unreachable!(),
            Err(_) => Err(std::alloc::AllocError),
        }
    }

    // All roots.
    fn add_roots(&self, shaper: &mut Shaper)
        requires prefix { IsPrefix self.now }
        requires before { shaper.old ≡ nothing_in (counts_of (hierarchy_by self.now)) }
        ensures { let h = hierarchy_by self.now in shaper.new ≡ took_roots h (length h.roots) }
    {
        for v in 0..roots(self.forest) {
            let (place, width, input) = self.root(v);
            let Ok(()) = shaper.add_root(place, width, input) else {
                unreachable!()
            };
        }
    }

    // All base faces.
    fn add_bases(&self, shaper: &mut Shaper)
        requires prefix { IsPrefix self.now }
        requires before { shaper.old ≡ took_bases (hierarchy_by self.now) 0 }
        ensures { let h = hierarchy_by self.now in shaper.new ≡ took_bases h (length h.bases) }
    {
        for f in 0..bases(self.forest) {
            let Ok(()) = shaper.add_base(self.base(f)) else {
                unreachable!()
            };
        }
    }

    // The records, with their faces.
    fn add_records(&self, shaper: &mut Shaper)
        requires prefix { IsPrefix self.now }
        requires before { shaper.old ≡ took_records (hierarchy_by self.now) 0 }
        ensures { shaper.new ≡ took_records (hierarchy_by self.now) self.now.n }
    {
        let mut f = bases(self.forest);
        for k in 0..self.n {
            let split = self.record(k);
            let Ok(()) = shaper.add_head(self.head(k)) else {
                unreachable!()
            };
            f = self.add_face(shaper, f, &split.left);
            f = self.add_face(shaper, f, &split.right);
        }
    }

    // A face that a record brings in, where it does, as face `f`. The answer is the next number.
    fn add_face(&self, shaper: &mut Shaper, f: u32, face: &Option<NewFace>) -> u32
        requires prefix { IsPrefix self.now }
        requires number { f < MOST_SIDES }
        requires inside { IfSome face.now (IsNew (whole self.now)) }
        requires due { IfSome (new_face_in (whole self.now) self.now.n f face.now)
            (IsDue shaper.old) }
        ensures next { result ≡ f + one_if (is_some face.now) }
        ensures taken { shaper.new
            ≡ with_due shaper.old (new_face_in (whole self.now) self.now.n f face.now) }
    {
        let Some(new) = face else {
            return f;
        };
        let corners = self.face(f, &new.face);
        let Ok(()) = shaper.add_face(corners, word_of(new.first), word_of(new.second)) else {
            unreachable!()
        };
        f + 1
    }
}

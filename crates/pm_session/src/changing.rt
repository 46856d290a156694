//! Hands out what changed since the marked front as arrays.
ghost use Rattle.std.specs.Prelude.{◌≡◌, length, IfOk, IfErr, OnOk, OnErr};
ghost use Rattle.pm_change.specs.Arrays.{sizes_of_change, ChangeFits, BeginWith, LeavesBehind};
ghost use Rattle.pm_session.specs.Script.{now_marked};
ghost use Rattle.pm_session.specs.Session.{state_of, change_since};

use crate::session::Session;
use pm_change::ChangeSizes;

impl Session {
    /// Writes what changed since the marked front to the front of the arrays, and marks the front
    /// as it stands, as the line `d` does; the arrays are as `Changer::store` says. It answers how
    /// many entries the lists have. It is refused exactly where an array has less room, with the
    /// same answer, and nothing is written or marked then. It takes no memory.
    pub fn change(
        &mut self,
        gone_faces: &mut [u32],
        gone_nodes: &mut [u32],
        new_nodes: &mut [u32],
        new_places: &mut [i32],
        put_faces: &mut [u32],
        put_corners: &mut [u32],
    ) -> Result<ChangeSizes, ChangeSizes>
        ensures fits { OnOk result (ChangeFits (sizes_of_change (change_since self.old))
            (length gone_faces.old) (length gone_nodes.old) (length new_nodes.old)
            (length new_places.old) (length put_faces.old) (length put_corners.old)) }
        ensures refused { OnErr result (ChangeFits (sizes_of_change (change_since self.old))
            (length gone_faces.old) (length gone_nodes.old) (length new_nodes.old)
            (length new_places.old) (length put_faces.old) (length put_corners.old) → ⊥) }
        ensures sizes { IfOk result (λ s. s ≡ sizes_of_change (change_since self.old)) }
        ensures wanted { IfErr result (λ s. s ≡ sizes_of_change (change_since self.old)) }
        ensures arrays { OnOk result (BeginWith (change_since self.old) gone_faces.new
            gone_nodes.new new_nodes.new new_places.new put_faces.new put_corners.new) }
        ensures behind { OnOk result (LeavesBehind (change_since self.old) gone_faces.old
            gone_nodes.old new_nodes.old new_places.old put_faces.old put_corners.old gone_faces.new
            gone_nodes.new new_nodes.new new_places.new put_faces.new put_corners.new) }
        ensures marked { OnOk result (state_of self.new ≡ now_marked (state_of self.old)) }
        ensures same { (self.new.h ≡ self.old.h) × (self.new.grammar ≡ self.old.grammar) }
        ensures unchanged { OnErr result (self.new ≡ self.old) }
        ensures unwritten { OnErr result ((gone_faces.new ≡ gone_faces.old)
            × (gone_nodes.new ≡ gone_nodes.old) × (new_nodes.new ≡ new_nodes.old)
            × (new_places.new ≡ new_places.old) × (put_faces.new ≡ put_faces.old)
            × (put_corners.new ≡ put_corners.old)) }
    {
        match self.tools.store_change(
            &self.front,
            self.marker.marks(),
            gone_faces,
            gone_nodes,
            new_nodes,
            new_places,
            put_faces,
            put_corners,
        ) {
            Ok(sizes) => {
                self.marker.mark(&self.front);
                Ok(sizes)
            }
            Err(sizes) => Err(sizes),
        }
    }
}

//! Writes what changed since a marked front.
ghost use Rattle.std.specs.Prelude.{◌≡◌, ◌+◌, ◌<◌, ◌≤◌, length, IfOk, IfErr, OnOk, OnErr};
ghost use Rattle.pm_io.specs.Puts.{Puts};
ghost use Rattle.pm_base.specs.Counts.{set_of};
ghost use Rattle.pm_forest.specs.Forest.{Hierarchy};
ghost use Rattle.pm_morph.specs.Marks.{AreMarksOf};
ghost use Rattle.pm_change.specs.Room.{room_of};
ghost use Rattle.pm_change.specs.Texts.{change_text};
ghost use Rattle.pm_change.specs.Costs.{most_steps};
ghost use Rattle.pm_change.specs.Changes.{change_of};
ghost use Rattle.pm_change.specs.Arrays.{sizes_of_change, ChangeFits, BeginWith, LeavesBehind};
ghost use Rattle.pm_change.specs.Gathering.{AreEmptySets, AreSetsOf, HaveRoomFor};

use crate::OutOfMemory;
use crate::fitting::ChangeSizes;
use crate::sets::ChangeSets;
use crate::storing::store_sets;
use crate::telling::write_sets;
use pm_forest::Hierarchy;
use pm_front::Front;
use pm_io::{Sink, WriteFault};
use pm_view::Steps;
use std::alloc::Global;
use std::marker::{Brand, Model};
use std::sync::ledger::{Blank, Ledger};

/// Writes the changes between fronts of one hierarchy. It has sets for the nodes and the faces of
/// a change, and contracts see for how many there is room.
#[derive(Drop)]
pub struct Changer {
    sets: ChangeSets,
}

impl Model for Changer {
    ghost use Rattle.std.specs.Prelude.{length};
    ghost use Rattle.pm_change.specs.Room.{Room};
    ghost use Rattle.pm_change.specs.Gathering.{AreReady};

    ghost Value = { Room };

    ghost view = { λ c. record {
      nodes = length c.sets.new_nodes;
      faces = length c.sets.put_faces;
    } };

    ghost invariant = { λ c. AreReady c.sets };
}

// Writes a change where nobody counts the steps.
fn write_uncounted<K: Sink, L: Ledger>(
    changer: &mut Changer,
    front: &Front,
    marks: &[bool],
    blank: Blank,
    out: &mut K,
) -> Result<(), WriteFault>
    requires room { changer.old ≡ room_of front.now.h }
    requires marks { AreMarksOf front.now.h marks.now }
    requires name { blank.name ≡ L.name }
    requires parts { blank.parts ≡ L.parts }
    requires some { 0 < L.parts }
    ensures puts { Puts K.Sink out.old out.new
        (change_text front.now.h (set_of marks.now) (set_of front.now.flags)) result }
    ensures same { changer.new ≡ changer.old }
{
    let mut steps: Steps<L> = Steps::new(blank);
    changer.write_counted(front, marks, &mut steps, out)
}

// Gathers a change where nobody counts the steps.
fn gather_uncounted<L: Ledger>(sets: &mut ChangeSets, front: &Front, marks: &[bool], blank: Blank)
    requires marks { AreMarksOf front.now.h marks.now }
    requires room { HaveRoomFor front.now.h sets.old }
    requires empty { AreEmptySets sets.old }
    requires name { blank.name ≡ L.name }
    requires parts { blank.parts ≡ L.parts }
    requires some { 0 < L.parts }
    ensures { AreSetsOf front.now.h (set_of marks.now) (set_of front.now.flags) sets.new }
{
    let mut steps: Steps<L> = Steps::new(blank);
    sets.gather(front, marks, &mut steps);
}

// Takes all numbers out where nobody counts the steps.
fn clear_uncounted<L: Ledger>(sets: &mut ChangeSets, blank: Blank)
    requires name { blank.name ≡ L.name }
    requires parts { blank.parts ≡ L.parts }
    requires some { 0 < L.parts }
    ensures room { (h : Hierarchy) → HaveRoomFor h sets.old → HaveRoomFor h sets.new }
    ensures empty { AreEmptySets sets.new }
{
    let mut steps: Steps<L> = Steps::new(blank);
    sets.clear(&mut steps);
}

impl Changer {
    /// A changer for the fronts of a hierarchy. All memory is taken here: two bits for each node
    /// and two for each face, and a 64th of that.
    pub fn new(alloc: Global, h: &Hierarchy) -> Result<Changer, OutOfMemory>
        ensures { IfOk result (λ c. c ≡ room_of h.now) }
    {
        let sets = ChangeSets::new(alloc, h)?;
        Ok(Changer { sets })
    }

    /// Writes what changed since the marked front: the faces and the nodes that are gone, the
    /// nodes that are new, with their places, and the faces that are new or have another corner,
    /// with the nodes at their corners; each ascending by number. Who removes and puts these by
    /// number makes the frame of this front of the one of the marked front. The front is one of
    /// the changer's hierarchy. It takes no memory. After a fault the sink has gained a part of
    /// the text from its front, and not the whole. A later call starts anew.
    ///
    /// The text is put in pages of 32,768 bytes, of which the last may be shorter: when the call
    /// returns, nothing is held back. What it costs is said at `write_counted`.
    pub fn write<K: Sink>(
        &mut self,
        front: &Front,
        marks: &[bool],
        out: &mut K,
    ) -> Result<(), WriteFault>
        requires room { self.old ≡ room_of front.now.h }
        requires marks { AreMarksOf front.now.h marks.now }
        ensures puts { Puts K.Sink out.old out.new
            (change_text front.now.h (set_of marks.now) (set_of front.now.flags)) result }
        ensures same { self.new ≡ self.old }
    {
        write_uncounted::<K, Brand>(self, front, marks, Blank::new(1), out)
    }

    /// Writes the same, and counts steps: one for each record, 40 at most for each record that is
    /// split in one of the two fronts and not in the other, and three at most for each corner of a
    /// kept face that is at a new node. The searches for the next number in a set, which pass over
    /// 4,096 numbers at a time, and the bytes of a line aren't counted.
    pub fn write_counted<K: Sink, L: Ledger>(
        &mut self,
        front: &Front,
        marks: &[bool],
        steps: &mut Steps<L>,
        out: &mut K,
    ) -> Result<(), WriteFault>
        requires room { self.old ≡ room_of front.now.h }
        requires marks { AreMarksOf front.now.h marks.now }
        ensures puts { Puts K.Sink out.old out.new
            (change_text front.now.h (set_of marks.now) (set_of front.now.flags)) result }
        ensures same { self.new ≡ self.old }
        ensures cost { steps.new ≤ steps.old
            + most_steps front.now.h (set_of marks.now) (set_of front.now.flags) }
    {
        front.invariant();
        self.sets.gather(front, marks, steps);
        let told = write_sets(front, &self.sets, steps, out);
        self.sets.clear(steps);
        told
    }

    /// Writes the same change to the front of the arrays, each ascending: the faces and the nodes
    /// that are gone; the nodes that are new, and their places, three coordinates for each; and the
    /// faces that are new or have another corner, and the nodes at their corners, three for each.
    /// It answers how many entries the lists have. It is refused exactly where an array has less
    /// room, with the same answer, and nothing is written then: a caller can make room and ask
    /// again. It takes no memory, and costs what `write_counted` says.
    pub fn store(
        &mut self,
        front: &Front,
        marks: &[bool],
        gone_faces: &mut [u32],
        gone_nodes: &mut [u32],
        new_nodes: &mut [u32],
        new_places: &mut [i32],
        put_faces: &mut [u32],
        put_corners: &mut [u32],
    ) -> Result<ChangeSizes, ChangeSizes>
        requires room { self.old ≡ room_of front.now.h }
        requires marks { AreMarksOf front.now.h marks.now }
        ensures fits { let c = change_of front.now.h (set_of marks.now) (set_of front.now.flags) in
            OnOk result (ChangeFits (sizes_of_change c) (length gone_faces.old)
            (length gone_nodes.old) (length new_nodes.old) (length new_places.old)
            (length put_faces.old) (length put_corners.old)) }
        ensures refused { let c = change_of front.now.h (set_of marks.now)
            (set_of front.now.flags) in
            OnErr result (ChangeFits (sizes_of_change c) (length gone_faces.old)
            (length gone_nodes.old) (length new_nodes.old) (length new_places.old)
            (length put_faces.old) (length put_corners.old) → ⊥) }
        ensures sizes { let c = change_of front.now.h (set_of marks.now) (set_of front.now.flags) in
            IfOk result (λ s. s ≡ sizes_of_change c) }
        ensures wanted { let c = change_of front.now.h (set_of marks.now)
            (set_of front.now.flags) in
            IfErr result (λ s. s ≡ sizes_of_change c) }
        ensures arrays { let c = change_of front.now.h (set_of marks.now)
            (set_of front.now.flags) in
            OnOk result (BeginWith c gone_faces.new gone_nodes.new new_nodes.new new_places.new
            put_faces.new put_corners.new) }
        ensures behind { let c = change_of front.now.h (set_of marks.now)
            (set_of front.now.flags) in
            OnOk result (LeavesBehind c gone_faces.old gone_nodes.old new_nodes.old new_places.old
            put_faces.old put_corners.old gone_faces.new gone_nodes.new new_nodes.new
            new_places.new put_faces.new put_corners.new) }
        ensures unwritten { OnErr result ((gone_faces.new ≡ gone_faces.old)
            × (gone_nodes.new ≡ gone_nodes.old) × (new_nodes.new ≡ new_nodes.old)
            × (new_places.new ≡ new_places.old) × (put_faces.new ≡ put_faces.old)
            × (put_corners.new ≡ put_corners.old)) }
        ensures same { self.new ≡ self.old }
    {
        front.invariant();
        gather_uncounted::<Brand>(&mut self.sets, front, marks, Blank::new(1));
        let told = store_sets(
            front,
            &self.sets,
            gone_faces,
            gone_nodes,
            new_nodes,
            new_places,
            put_faces,
            put_corners,
        );
        clear_uncounted::<Brand>(&mut self.sets, Blank::new(1));
        told
    }
}

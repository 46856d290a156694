//! A change of a buffer, slot by slot.
ghost use Rattle.std.specs.Prelude.{◌≡◌, ◌+◌, ◌<◌, ◌≤◌, ◌⊎◌, length, max, slice_set, drop};
ghost use Rattle.std.specs.Prelude.{IfSome, IfNone};
ghost use Rattle.pm_buffers.specs.Buffers.{at, IsBuffer, Shows, StandsIn, shown_count};
ghost use Rattle.pm_buffers.specs.Changes.{IsChange, write_count};
ghost use Rattle.pm_buffers.specs.Steps.{AreWrittenSoFar};

use crate::tables::Tables;

impl Tables {
    // The slot of the item at this place of the list, if there is one that is shown.
    fn slot_at(&self, put: &[u32], place: usize) -> Option<u32>
        ensures some { IfSome result (λ slot. StandsIn self.now.entries slot (at put.now place)) }
        ensures none { IfNone result (¬ Shows self.now.entries (at put.now place)) }
    {
        if place < put.len() {
            self.slot_of(put[place])
        } else {
            None
        }
    }

    // One slot: an item leaves, or comes, or both, whichever the lists have at these places.
    fn change_at(&mut self, gone: &[u32], next: usize, put: &[u32], place: usize) -> u32
        requires place { (next < length gone.now) ⊎ (place < length put.now) }
        requires gone { next < length gone.now → Shows self.old.entries (at gone.now next) }
        requires put { place < length put.now → at put.now place < length self.old.entries }
        requires hidden { ¬ Shows self.old.entries (at put.now place) }
        ensures slot { at self.old.entries result ≡ at gone.now next }
        ensures within { result < length self.old.entries }
        ensures entries { self.new.entries ≡ slice_set self.old.entries result (at put.now place) }
        ensures count { length gone.now ≤ next
            → shown_count self.new.entries ≡ shown_count self.old.entries + 1 }
        ensures len { next < length gone.now → self.new.len ≡ self.old.len }
        ensures grows { self.new.len ≡ max self.old.len (shown_count self.new.entries) }
        ensures sound { IsBuffer self.new }
    {
        if next >= gone.len() {
            self.enter(put[place])
        } else if place >= put.len() {
            self.leave(gone[next])
        } else {
            self.replace(gone[next], put[place])
        }
    }

    /// Items leave, and items are put. Writes the numbers of the slots, of which there are `count`.
    pub(crate) fn change(&mut self, gone: &[u32], put: &[u32], writes: &mut [u32], count: usize)
        requires sound { IsBuffer self.old }
        requires change { IsChange self.old.entries gone.now put.now }
        requires count { count ≡ write_count self.old.entries gone.now put.now }
        requires room { count ≤ length writes.old }
        ensures len { length writes.new ≡ length writes.old }
        ensures behind { drop count writes.new ≡ drop count writes.old }
        ensures same { length self.new.entries ≡ length self.old.entries }
        ensures written { AreWrittenSoFar self.old.entries gone.now put.now self.new.entries
            writes.new count (length gone.now) }
        ensures grows { self.new.len ≡ max self.old.len (shown_count self.new.entries) }
        ensures sound { IsBuffer self.new }
    {
        let mut next = 0;
        for place in 0..count {
            if let Some(slot) = self.slot_at(put, place) {
                writes[place] = slot;
            } else {
                writes[place] = self.change_at(gone, next, put, place);
                next += 1;
            }
        }
    }
}

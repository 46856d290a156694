//! Which empty slots are taken, and in which order: no clause tells that.
use crate::{ChangeFail, Slots};
use std::alloc::Global;
use std::test::Fail;

// Whether items take the slots that were left at once, then the slot that was left last, and slots
// at the end when no other is left; and those that are shown stay.
fn takes_slots_in_order(alloc: Global) -> Result<bool, Fail> {
    let mut slots = Slots::new(alloc, 8)?;
    let (mut writes, mut few) = ([0; 5], [0; 4]);
    let came = slots.change(&[], &[5, 2, 7, 0], &mut writes);
    let came_at = writes;
    let left = slots.change(&[2, 0], &[], &mut writes);
    let cut = slots.change(&[7], &[1, 5, 3, 4, 6], &mut few);
    let mixed = slots.change(&[7], &[1, 5, 3, 4, 6], &mut writes);
    let refused = slots.change(&[2], &[0], &mut writes);
    Ok(
        came == Ok(4)
            && came_at == [0, 1, 2, 3, 0]
            && left == Ok(2)
            && cut == Err(ChangeFail::NoRoom(5))
            && mixed == Ok(5)
            && writes == [2, 0, 3, 1, 4]
            && refused == Err(ChangeFail::NotAChange)
            && slots.len() == 5
            && slots.slot_of(3) == Some(3)
            && slots.item_in(1) == Some(4)
            && slots.slot_of(2).is_none()
            && slots.item_in(5).is_none(),
    )
}

#[test]
fn the_slot_left_last_is_taken_first(rt: HostRuntime) -> Result<(), Fail> {
    assert!(rt; takes_slots_in_order(rt.alloc())?);
    Ok(())
}

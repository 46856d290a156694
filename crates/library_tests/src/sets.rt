//! Tests of pm_sets.
ghost use Rattle.std.specs.Prelude.{◌≡◌, length};

use pm_sets::NumberSet;
use std::alloc::Global;
use std::test::Fail;

// Whether three numbers, put in out of order, are taken from both ends in order.
fn gives_in_order(set: &mut NumberSet) -> bool
    requires { length set.old ≡ 5000 }
{
    let None = set.take_first() else {
        return false;
    };
    set.insert(4096);
    set.insert(63);
    set.insert(64);
    let between = set.first_from(65);
    let taken = [
        set.take_first(),
        set.take_last(),
        set.take_last(),
        set.take_last(),
    ];
    between == Some(4096) && taken == [Some(63), Some(4096), Some(64), None]
}

fn set_gives_in_order(alloc: Global) -> Result<bool, Fail> {
    let mut set = NumberSet::new(alloc, 5000)?;
    Ok(gives_in_order(&mut set))
}

#[test]
fn numbers_come_in_order_from_both_ends(rt: HostRuntime) -> Result<(), Fail> {
    assert!(rt; set_gives_in_order(rt.alloc())?);
    Ok(())
}

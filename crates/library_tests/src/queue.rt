//! Tests of pm_queue.
ghost use Rattle.std.specs.Prelude.{◌≡◌, ◌<◌, length};

use pm_queue::{Key, Queue};
use std::alloc::Global;
use std::test::Fail;

const ITEMS: usize = 12;

// Whether the least key comes first, and the smaller item of two with the same key.
fn gives_the_least(queue: &mut Queue, key: Key, lesser: Key) -> bool
    requires { length queue.old ≡ 3 }
{
    queue.set(2, key);
    queue.set(0, key);
    let both = queue.least() == Some((0, key));
    queue.set(2, lesser);
    let changed = queue.least() == Some((2, lesser));
    let removed = [queue.remove(2), queue.remove(2)] == [true, false];
    let taken = [queue.take_least(), queue.take_least()] == [Some((0, key)), None];
    both && changed && removed && taken
}

fn least_comes_first(alloc: Global) -> Result<bool, Fail> {
    let key = Key {
        cost: 5,
        a: 0,
        b: 1,
    };
    let lesser = Key {
        cost: 4,
        a: 9,
        b: 9,
    };
    let mut queue = Queue::new(alloc, 3)?;
    Ok(gives_the_least(&mut queue, key, lesser))
}

#[test]
fn the_least_key_and_the_smaller_item_come_first(rt: HostRuntime) -> Result<(), Fail> {
    assert!(rt; least_comes_first(rt.alloc())?);
    Ok(())
}

// The least entry, by a search of the whole list.
fn least_of(plain: &[Option<Key>]) -> Option<(u32, Key)> {
    let mut best: Option<(u32, Key)> = None;
    for item in 0..ITEMS as u32 {
        if let Some(Some(key)) = plain.get(item as usize) {
            let is_better = match best {
                None => true,
                Some((_, least)) => (key.cost, key.a, key.b) < (least.cost, least.a, least.b),
            };
            if is_better {
                best = Some((item, *key));
            }
        }
    }
    best
}

// Puts the key of an item into the plain list, or takes it away.
fn put(plain: &mut [Option<Key>; ITEMS], item: u32, key: Option<Key>) {
    if let Some(slot) = plain.get_mut(item as usize) {
        *slot = key;
    }
}

// Takes a key from both. Whether both had one, or none.
fn remove(queue: &mut Queue, plain: &mut [Option<Key>; ITEMS], item: u32) -> bool
    requires item { item < length queue.old }
    ensures items { length queue.new ≡ length queue.old }
{
    let had = plain.get(item as usize).copied().flatten().is_some();
    put(plain, item, None);
    queue.remove(item) == had
}

// Takes the least entry from both. Whether it is the same.
fn take_least(queue: &mut Queue, plain: &mut [Option<Key>; ITEMS]) -> bool
    ensures items { length queue.new ≡ length queue.old }
{
    let expected = least_of(plain.as_slice());
    match queue.take_least() {
        Some((item, key)) => {
            put(plain, item, None);
            expected == Some((item, key))
        }
        None => expected.is_none(),
    }
}

// Makes the call that a number chooses, on the queue and on the plain list, and answers whether
// they agree.
fn agree_on(queue: &mut Queue, plain: &mut [Option<Key>; ITEMS], state: u32) -> bool
    requires items { length queue.old ≡ 12 }
    ensures items { length queue.new ≡ 12 }
{
    let item = (state >> 16) % ITEMS as u32;
    match (state >> 22) % 4 {
        0 => remove(queue, plain, item),
        1 => take_least(queue, plain),
        _ => {
            let key = Key {
                cost: u128::from(state >> 30),
                a: (state >> 28) % 2,
                b: (state >> 26) % 4,
            };
            queue.set(item, key);
            put(plain, item, Some(key));
            true
        }
    }
}

// Whether a queue and a plain list agree on 400 calls.
fn calls_agree(alloc: Global) -> Result<bool, Fail> {
    let mut plain: [Option<Key>; ITEMS] = [None; ITEMS];
    let mut queue = Queue::new(alloc, ITEMS as u32)?;
    let mut state: u32 = 1;
    for _ in 0..400 {
        // A linear congruential generator; its high bits are the ones that vary well.
        state = state.wrapping_mul(1_664_525).wrapping_add(1_013_904_223);
        if !agree_on(&mut queue, &mut plain, state) || queue.least() != least_of(&plain) {
            return Ok(false);
        }
    }
    Ok(true)
}

#[test]
fn mixed_calls_agree_with_a_plain_list(rt: HostRuntime) -> Result<(), Fail> {
    assert!(rt; calls_agree(rt.alloc())?);
    Ok(())
}

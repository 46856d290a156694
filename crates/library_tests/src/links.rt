//! Tests of pm_links.
ghost use Rattle.std.specs.Prelude.{◌≡◌, ◌<◌, length};
ghost use Rattle.pm_links.specs.Lists.{empty_lists};

use pm_links::{Links, OutOfMemory};
use std::alloc::Global;
use std::test::Fail;

// Whether a list of two items comes before another's one, in order.
fn joins_in_order(links: &mut Links) -> bool
    requires { links.old ≡ empty_lists 3 2 }
{
    links.push_front(0, 1);
    links.push_front(0, 2);
    links.push_front(1, 0);
    links.move_all(0, 1);
    let firsts = [links.first(0), links.first(1)];
    let nexts = [links.next(2), links.next(1), links.next(0)];
    firsts == [None, Some(2)] && nexts == [Some(1), Some(0), None]
}

fn lists_are_joined(alloc: Global) -> Result<bool, Fail> {
    let mut links = Links::new(alloc, 3, 2)?;
    Ok(joins_in_order(&mut links))
}

#[test]
fn moves_one_list_before_another(rt: HostRuntime) -> Result<(), Fail> {
    assert!(rt; lists_are_joined(rt.alloc())?);
    Ok(())
}

// All lists as one, the items of each head in order: a pair is a head and an item.
type Plain = Vec<(u32, u32)>;

// Puts the items of `from` before those of `to` in the plain lists.
fn move_plain(alloc: Global, plain: &mut Plain, from: u32, to: u32) -> Result<(), OutOfMemory> {
    let mut pairs = Vec::new(alloc);
    for &(head, item) in plain.iter() {
        if head == from {
            pairs.push((to, item))?;
        }
    }
    plain.retain(|pair| pair.0 != from);
    pairs.extend_from_slice(plain)?;
    *plain = pairs;
    Ok(())
}

// One call, on the arena and on the plain lists: a free item is put in. For a held one, it is taken
// out where `head` and `other` are the same, and else a list is moved.
fn step(
    alloc: Global,
    links: &mut Links,
    plain: &mut Plain,
    item: u32,
    head: u32,
    other: u32,
) -> Result<(), OutOfMemory>
    requires item_in { item < links.old.items }
    requires head_in { head < length links.old.lists }
    requires other_in { other < length links.old.lists }
    ensures items { links.new.items ≡ links.old.items }
    ensures heads { length links.new.lists ≡ length links.old.lists }
{
    match links.head_of(item) {
        None => {
            links.push_front(head, item);
            plain.insert(0, (head, item))?;
        }
        Some(_) => {
            if head == other {
                links.unlink(item);
                plain.retain(|pair| pair.1 != item);
            } else {
                links.move_all(head, other);
                move_plain(alloc, plain, head, other)?;
            }
        }
    }
    Ok(())
}

// Whether the list of `head` is that of the plain lists.
fn is_same(links: &Links, plain: &[(u32, u32)], head: u32) -> bool
    requires { head < length links.now.lists }
{
    let mut items = links.items(head);
    for &(owner, item) in plain {
        if owner == head && items.next() != Some(item) {
            return false;
        }
    }
    items.next().is_none()
}

// Whether each of five lists is that of the plain lists.
fn are_same(links: &Links, plain: &[(u32, u32)]) -> bool
    requires { length links.now.lists ≡ 5 }
{
    for head in 0..5 {
        if !is_same(links, plain, head) {
            return false;
        }
    }
    true
}

// The list that an item is in.
fn owner_of(plain: &[(u32, u32)], item: u32) -> Option<u32> {
    for &(head, other) in plain {
        if other == item {
            return Some(head);
        }
    }
    None
}

// Whether the arena and the plain lists agree on 400 calls.
fn lists_agree(alloc: Global) -> Result<bool, Fail> {
    let mut links = Links::new(alloc, 12, 5)?;
    let mut plain: Plain = Vec::new(alloc);
    let mut seed = 1u32;
    for _ in 0..400 {
        seed = seed.wrapping_mul(1_664_525).wrapping_add(1_013_904_223);
        let item = (seed >> 8) % 12;
        let (head, other) = ((seed >> 14) % 5, (seed >> 20) % 5);
        let is_owner = links.head_of(item) == owner_of(&plain, item);
        step(alloc, &mut links, &mut plain, item, head, other)?;
        if !is_owner || !are_same(&links, &plain) {
            return Ok(false);
        }
    }
    Ok(true)
}

#[test]
fn agrees_with_plain_lists(rt: HostRuntime) -> Result<(), Fail> {
    assert!(rt; lists_agree(rt.alloc())?);
    Ok(())
}

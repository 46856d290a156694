//! Rings of nodes, from which lists are made.
ghost use Rattle.std.specs.Prelude.{◌≡◌, ℕ, ◌+◌, ◌*◌, ◌<◌, ◌≤◌, true, false, List, length};
ghost use Rattle.std.specs.Prelude.{slice_index, slice_set};
ghost use Rattle.pm_links.specs.Arena.{IsLinked, walk_items};
ghost use Rattle.pm_links.specs.Lists.{AreFirst, IsOnce, gathered, has, set_all};

// Circular lists with links both ways and a node for each head (Knuth 1968). A ring is never empty,
// so no step asks whether an item is the first or the last of its list.

// Lets node `to` follow node `from`.
fn link(next: &mut [u32], prev: &mut [u32], from: u32, to: u32)
    requires from_in { from < length next.old }
    requires to_in { to < length prev.old }
    ensures next { next.new ≡ slice_set next.old from to }
    ensures prev { prev.new ≡ slice_set prev.old to from }
{
    next[from as usize] = to;
    prev[to as usize] = from;
}

// Puts `item` into the ring of `node`, right after it.
pub fn insert_after(next: &mut [u32], prev: &mut [u32], node: u32, item: u32)
    requires same_len { length prev.old ≡ length next.old }
    requires node_in { node < length next.old }
    requires item_in { item < length next.old }
    requires after_in { slice_index next.old node < length next.old }
    ensures next { next.new ≡ slice_set (slice_set next.old item (slice_index next.old node)) node
        item }
    ensures prev { prev.new ≡ slice_set (slice_set prev.old (slice_index next.old node) item) item
        node }
{
    let after = next[node as usize];
    link(next, prev, item, after);
    link(next, prev, node, item);
}

// Takes `item` out of its ring.
pub fn cut_out(next: &mut [u32], prev: &mut [u32], item: u32)
    requires same_len { length prev.old ≡ length next.old }
    requires item_in { item < length next.old }
    requires before_in { slice_index prev.old item < length next.old }
    requires after_in { slice_index next.old item < length next.old }
    ensures next { next.new ≡ slice_set next.old (slice_index prev.old item)
        (slice_index next.old item) }
    ensures prev { prev.new ≡ slice_set prev.old (slice_index next.old item)
        (slice_index prev.old item) }
{
    let before = prev[item as usize];
    let after = next[item as usize];
    link(next, prev, before, after);
}

// Puts the items of the ring of `from`, which has some, right after `to`. The node `from` is left
// as a ring of its own.
pub fn move_ring(next: &mut [u32], prev: &mut [u32], from: u32, to: u32)
    requires same_len { length prev.old ≡ length next.old }
    requires from_in { from < length next.old }
    requires to_in { to < length next.old }
    requires first_in { slice_index next.old from < length next.old }
    requires last_in { slice_index prev.old from < length next.old }
    requires after_in { slice_index next.old to < length next.old }
    ensures next { next.new
        ≡ slice_set (slice_set (slice_set next.old to (slice_index next.old from))
        (slice_index prev.old from) (slice_index next.old to)) from from }
    ensures prev { prev.new
        ≡ slice_set (slice_set (slice_set prev.old (slice_index next.old from) to)
        (slice_index next.old to) (slice_index prev.old from)) from from }
{
    let first = next[from as usize];
    let last = prev[from as usize];
    let after = next[to as usize];
    link(next, prev, to, first);
    link(next, prev, last, after);
    link(next, prev, from, from);
}

/// Which places of a room the items of a list take: those before `front`, and those from `back` on.
#[derive(Clone, Copy, Debug, PartialEq, Eq)]
pub struct Ends {
    pub front: usize,
    pub back: usize,
}

// Copies the items of a ring to both ends of a room, with a walk from either end of the list.
pub fn copy_ends(next: &[u32], prev: &[u32], node: u32, room: &mut [u32]) -> Ends
    ghost items: { List ℕ }
    requires same_len { length prev.now ≡ length next.now }
    requires node_in { node < length next.now }
    requires linked { IsLinked next.now prev.now node items node }
    requires once { IsOnce items }
    requires node_out { has items node ≡ false }
    requires items_in { (x : ℕ) → has items x ≡ true → x < length next.now }
    ensures len { length room.new ≡ length room.old }
    ensures front { result.front ≤ result.back }
    ensures back { result.back ≤ length room.new }
    ensures first { AreFirst (gathered room.new result.front result.back) items }
    ensures all { length items ≤ length room.old
        → gathered room.new result.front result.back ≡ items }
    ensures more { length room.old < length items → length room.old ≤ 2 * result.front }
{
    let mut front = 0;
    let mut back = room.len();
    // The last item copied by either walk; the two meet where one comes next to the other.
    let mut first = node;
    let mut last = node;
    while front < back {
        let item = next[first as usize];
        if item == last {
            return Ends { front, back };
        }
        room[front] = item;
        front += 1;
        first = item;
        if front < back {
            let item = prev[last as usize];
            if item == first {
                return Ends { front, back };
            }
            back -= 1;
            room[back] = item;
            last = item;
        }
    }
    if next[first as usize] != last {
        // Items are left over for want of room, and so only those of the front are the list's
        // first.
        back = room.len();
    }
    Ends { front, back }
}

// Makes `head` the owner of each item from node `start` on, up to the node of a head.
pub fn relabel(next: &[u32], owner: &mut [u32], start: u32, head: u32)
    requires { length owner.old ≤ length next.now }
    ensures { owner.new
        ≡ set_all owner.old (walk_items next.now (length owner.old) (length owner.old) start) head }
{
    let mut node = start;
    // No list has more items than there are, and so the walk comes to a head's node within the
    // count.
    for _ in 0..owner.len() {
        if node as usize >= owner.len() {
            return;
        }
        owner[node as usize] = head;
        node = next[node as usize];
    }
}

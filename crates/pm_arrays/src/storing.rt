//! Numbers stored in arrays, one after the other.
ghost use Rattle.std.specs.Prelude.{◌≡◌, ◌+◌, ◌*◌, ◌≤◌, ◌<◌, [], ◌∷◌, ◌++◌, length, take, drop};

use pm_base::Point;

/// Stores a number behind the first `count`.
pub fn store(to: &mut [u32], count: usize, number: u32)
    requires { count < length to.old }
    ensures stored { take (count + 1) to.new ≡ take count to.old ++ number ∷ [] }
    ensures behind { drop (count + 1) to.new ≡ drop (count + 1) to.old }
    ensures len { length to.new ≡ length to.old }
{
    to[count] = number;
}

/// Stores three numbers behind the first `count` threes.
pub fn store_three(to: &mut [u32], count: usize, three: [u32; 3])
    requires { 3 * count + 3 ≤ length to.old }
    ensures stored { take (3 * (count + 1)) to.new ≡ take (3 * count) to.old ++ three }
    ensures behind { drop (3 * (count + 1)) to.new ≡ drop (3 * (count + 1)) to.old }
    ensures len { length to.new ≡ length to.old }
{
    let [a, b, c] = three;
    store(to, 3 * count, a);
    store(to, 3 * count + 1, b);
    store(to, 3 * count + 2, c);
}

// Stores a coordinate behind the first `count`.
fn store_coordinate(to: &mut [i32], count: usize, number: i32)
    requires { count < length to.old }
    ensures stored { take (count + 1) to.new ≡ take count to.old ++ number ∷ [] }
    ensures behind { drop (count + 1) to.new ≡ drop (count + 1) to.old }
    ensures len { length to.new ≡ length to.old }
{
    to[count] = number;
}

/// Stores a place behind the first `count` places.
pub fn store_place(to: &mut [i32], count: usize, place: &Point)
    requires { 3 * count + 3 ≤ length to.old }
    ensures stored { take (3 * (count + 1)) to.new ≡ take (3 * count) to.old ++ place.now.x
        ∷ place.now.y ∷ place.now.z ∷ [] }
    ensures behind { drop (3 * (count + 1)) to.new ≡ drop (3 * (count + 1)) to.old }
    ensures len { length to.new ≡ length to.old }
{
    store_coordinate(to, 3 * count, place.x());
    store_coordinate(to, 3 * count + 1, place.y());
    store_coordinate(to, 3 * count + 2, place.z());
}

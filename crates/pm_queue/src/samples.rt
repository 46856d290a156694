//! A small cost, found by a look at some keys of many.

ghost use Rattle.std.specs.Prelude.{◌<◌, length};

use super::slot::Slot;

// How many keys are looked at: more keys, and fewer are near, but others come near more often.
const SAMPLES: usize = 32;

/// The place of the key of least cost of some, which stand evenly among all.
pub(crate) fn least_of_samples(keys: &[Slot]) -> usize
    requires { 0 < length keys.now }
    ensures { result < length keys.now }
{
    let step = keys.len() / SAMPLES + 1;
    let mut at = step / 2;
    let mut least = at;
    while at < keys.len() {
        if keys[at].cost() < keys[least].cost() {
            least = at;
        }
        at += step;
    }
    least
}

//! Keys, and which of two comes first.
ghost use Rattle.std.specs.Prelude.{◌≡◌};

/// What a queue orders its items by: `cost`, then `a`, then `b`.
#[derive(Clone, Copy, Debug, PartialEq, Eq)]
pub struct Key {
    pub cost: u128,
    pub a: u32,
    pub b: u32,
}

impl Key {
    ghost use Rattle.pm_queue.specs.Keys.{is_before};

    /// Whether this key comes before the other one. No key comes before itself.
    pub fn is_before(&self, other: &Key) -> bool
        ensures order { result ≡ is_before self.now other.now }
    {
        if self.cost != other.cost {
            return self.cost < other.cost;
        }
        if self.a != other.a {
            return self.a < other.a;
        }
        self.b < other.b
    }
}

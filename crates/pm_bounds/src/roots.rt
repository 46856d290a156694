//! Square roots of squared distances, rounded up to whole numbers.
ghost use Rattle.std.specs.Prelude.{◌≡◌, ℕ, ◌*◌, ◌≤◌};
ghost use Rattle.pm_base.specs.Rounded.{root_up};

// A number that the root is at most: the first of four that is great enough, so that the search
// takes 6, 9, 12 or 17 steps.
fn most(n: u64) -> u64
    requires { n ≤ 12884115468 }
    ensures enough { n ≤ result * result }
    ensures small { result ≤ 113509 }
{
    if n <= 4_096 {
        64
    } else if n <= 262_144 {
        512
    } else if n <= 16_777_216 {
        4_096
    } else {
        113_509
    }
}

/// The least whole number whose square is at least n. Most distances are short, and their roots are
/// found in fewer steps.
pub(crate) fn root_up(n: u64) -> u64
    requires { n ≤ 12884115468 }
    ensures value { result ≡ root_up n }
    ensures enough { n ≤ result * result }
    ensures least { (m : ℕ) → n ≤ m * m → result ≤ m }
    ensures small { result ≤ 113509 }
{
    let mut low: u64 = 0;
    let mut high = most(n);
    while low < high {
        let middle = (low + high) / 2;
        if middle * middle < n {
            low = middle + 1;
        } else {
            high = middle;
        }
    }
    high
}

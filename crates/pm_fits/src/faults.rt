//! Why there are no fits.
ghost use Rattle.std.specs.Prelude.{◌≡◌};
ghost use Rattle.std.specs.List.{list_all};
ghost use Rattle.pm_fits.specs.Faults.{is_number, number_fault};

use crate::numbers::GREATEST_NUMBER;

/// Why numbers have no fits.
#[derive(Clone, Copy, Debug, PartialEq, Eq)]
pub enum FitFault {
    /// There aren't just as many numbers as there should be for the vertices of the input.
    Count,
    /// A number is above `GREATEST_NUMBER` in absolute value.
    Number,
    /// There is no memory.
    OutOfMemory,
}

fn is_number(n: i32) -> bool
    ensures { result ≡ is_number n }
{
    n.unsigned_abs() <= GREATEST_NUMBER
}

fn are_numbers(values: &[i32]) -> bool
    ensures { result ≡ list_all is_number values.now }
{
    values.iter().all(|n| is_number(*n))
}

/// What is wrong with numbers of which there should be so many; none where there are, and none is
/// above `GREATEST_NUMBER` in absolute value. It looks at each number.
pub fn number_fault(count: usize, values: &[i32]) -> Option<FitFault>
    ensures { result ≡ number_fault count values.now }
{
    if values.len() != count {
        return Some(FitFault::Count);
    }
    if are_numbers(values) {
        None
    } else {
        Some(FitFault::Number)
    }
}

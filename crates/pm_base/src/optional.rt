//! Optional numbers in four bytes.
ghost use Rattle.std.specs.Prelude.{◌≡◌, ◌<◌, IfSome};
ghost use Rattle.pm_base.specs.declared.optional.TheConstants.{NONE};

use std::marker::Model;

// Stands in a place for no number.
const NONE: u32 = u32::MAX;

/// A number below 2^32 - 1, or none, in four bytes, where an `Option<u32>` takes eight. Contracts
/// see the number, or none.
#[derive(Clone, Copy)]
pub struct OptionalNumber {
    number: u32,
}

impl Model for OptionalNumber {
    ghost use Rattle.std.specs.Prelude.{ℕ, Option, None, Some, cond, ◌==◌, unwrap_or};
    ghost use Rattle.pm_base.specs.declared.optional.TheConstants.{NONE};

    ghost Value = { Option ℕ };

    ghost view = { λ n. cond (n.number == NONE) None (Some n.number) };

    ghost inverse = { λ o. record { number = unwrap_or o NONE } };
}

impl OptionalNumber {
    /// The same in four bytes. The number is below 2^32 - 1.
    pub fn of(number: Option<u32>) -> OptionalNumber
        requires { IfSome number (λ n. n < NONE) }
        ensures { result ≡ number }
    {
        OptionalNumber {
            number: number.unwrap_or(NONE),
        }
    }

    /// The number, if there is one.
    pub fn get(&self) -> Option<u32>
        ensures { result ≡ self.now }
    {
        if self.number == NONE {
            None
        } else {
            Some(self.number)
        }
    }
}

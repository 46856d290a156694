//! The binary formats of IEEE 754, and the parts of their numbers.
ghost use Rattle.std.specs.Prelude.{◌≡◌, ◌<◌, ◌≤◌, ◌^◌, ◌+◌, max};
ghost use Rattle.float_read.specs.Floats.{IsFormat, fraction, exponent, is_negative};
ghost use Rattle.float_read.specs.Floats.{greatest_exponent, significand, scale};

/// How many bits a number has for its exponent and for its fraction.
#[derive(Clone, Copy, Debug, PartialEq, Eq)]
pub struct Format {
    pub exponent_bits: u32,
    pub fraction_bits: u32,
}

impl Format {
    /// What stands after the point.
    #[tactic(auto, unfolding(crate::specs::Floats::fraction))]
    fn fraction(self, bits: u64) -> u64
        requires { IsFormat self }
        ensures value { result ≡ fraction self bits }
        ensures small { result < 2 ^ self.fraction_bits }
    {
        bits % (1 << self.fraction_bits)
    }

    /// The exponent as it stands there.
    #[tactic(auto, unfolding(crate::specs::Floats::exponent))]
    pub(crate) fn exponent(self, bits: u64) -> u32
        requires { IsFormat self }
        ensures value { result ≡ exponent self bits }
        ensures small { result < 2 ^ self.exponent_bits }
    {
        ((bits >> self.fraction_bits) % (1 << self.exponent_bits)) as u32
    }

    #[tactic(auto, unfolding(crate::specs::Floats::is_negative))]
    pub(crate) fn is_negative(self, bits: u64) -> bool
        requires { IsFormat self }
        ensures { result ≡ is_negative self bits }
    {
        (bits >> (self.fraction_bits + self.exponent_bits)) % 2 == 1
    }

    /// The exponent of infinities and of what isn't a number.
    #[tactic(auto, unfolding(crate::specs::Floats::greatest_exponent))]
    pub(crate) fn greatest_exponent(self) -> u32
        requires { IsFormat self }
        ensures { result ≡ greatest_exponent self }
    {
        (1 << self.exponent_bits) - 1
    }

    /// The fraction with the bit before it.
    #[tactic(auto, unfolding(crate::specs::Floats::significand))]
    pub(crate) fn significand(self, bits: u64) -> u64
        requires { IsFormat self }
        ensures value { result ≡ significand self bits }
        ensures small { result < 2 ^ 53 }
    {
        if self.exponent(bits) == 0 {
            self.fraction(bits)
        } else {
            (1 << self.fraction_bits) + self.fraction(bits)
        }
    }

    /// By how many powers of two a significand with an exponent is divided.
    #[tactic(auto, unfolding(crate::specs::Floats::scale))]
    pub(crate) fn scale(self) -> u32
        requires { IsFormat self }
        ensures value { result ≡ scale self }
        ensures small { result < 2048 }
    {
        (1 << (self.exponent_bits - 1)) - 1 + self.fraction_bits
    }
}

//! The interval of a range coder (G. N. N. Martin, "Range encoding", 1979), carry-less as in the
//! lpaq and ZPAQ compressors of Matt Mahoney: the top bytes that both ends share can't change any
//! more, so they go out at once.
ghost use Rattle.std.specs.Prelude.{◌≡◌, ◌<◌, ◌≤◌};
ghost use Rattle.pm_coder.specs.Intervals.{choice, mid, narrowed, shifted, top, is_apart};

/// The numbers from `low` to `high`, of 32 bits.
#[derive(Clone, Copy)]
pub(crate) struct Interval {
    pub(crate) low: u32,
    pub(crate) high: u32,
}

impl Interval {
    /// Every number.
    pub(crate) const fn whole() -> Interval
        ensures { result ≡ record { low = 0; high = 4294967295 } }
    {
        Interval {
            low: 0,
            high: u32::MAX,
        }
    }

    /// The last number of the part for `true`.
    pub(crate) fn mid(self, share: u16) -> u32
        requires { self.low ≤ self.high }
        ensures { result ≡ mid self share }
    {
        let part = u64::from(self.high - self.low) * u64::from(share) / 65536;
        self.low + part as u32
    }

    /// The part for a choice.
    pub(crate) fn narrowed(self, bit: bool, share: u16) -> Interval
        requires { self.low < self.high }
        ensures { result ≡ narrowed self (choice bit share) }
    {
        let mid = self.mid(share);
        if bit {
            Interval {
                low: self.low,
                high: mid,
            }
        } else {
            Interval {
                low: mid + 1,
                high: self.high,
            }
        }
    }

    /// Whether the top bytes differ.
    pub(crate) fn is_apart(self) -> bool
        ensures { result ≡ is_apart self }
    {
        self.low / 0x100_0000 != self.high / 0x100_0000
    }

    /// The top byte, where it is the same for all.
    pub(crate) fn top(self) -> u8
        ensures { result ≡ top self.high }
    {
        (self.high / 0x100_0000) as u8
    }

    /// The interval without its top byte.
    pub(crate) fn shifted(self) -> Interval
        ensures { result ≡ shifted self }
    {
        Interval {
            low: self.low % 0x100_0000 * 0x100,
            high: self.high % 0x100_0000 * 0x100 + 0xff,
        }
    }
}

//! Where bytes come from and where they go. Each device counts its failures, so that a caller that
//! is generic over it can answer "it failed" only where the count says so.
ghost use Rattle.std.specs.Prelude.{◌≡◌, ◌<◌, ◌≤◌, List, ℕ, Bool, false, Option, length, take};
ghost use Rattle.std.specs.Prelude.{IfOk, OnErr};
ghost use Rattle.pm_io.specs.Bytes.{Loses, Gains, AtEnd};
ghost use Rattle.pm_io.specs.Causes.{HasCause};

/// A device failed in this call.
#[derive(Clone, Copy, Debug, PartialEq, Eq)]
pub struct Failed;

/// A source failed in this call.
#[derive(Clone, Copy, Debug, PartialEq, Eq)]
pub struct ReadFault;

/// A sink failed in this call.
#[derive(Clone, Copy, Debug, PartialEq, Eq)]
pub struct WriteFault;

/// A source of bytes.
pub trait Source {
    /// The bytes still to come, where the source tells them.
    ghost left: { Self → Option (List ℕ) };

    /// How often the source has failed. The count never falls.
    ghost faults: { Self → ℕ };

    /// Whether the source has ended: it answered that nothing is left, and isn't to be asked again.
    /// A source needn't keep that: it may say that it never ends. Who takes any source can't count
    /// on it.
    ghost ended: { Self → Bool } = { λ _. false };

    /// Takes the next bytes into the front of the buffer and answers how many: 0 exactly where
    /// nothing is left. Only after that answer the source may have ended.
    fn take(&mut self, buf: &mut [u8]) -> Result<usize, Failed>
        requires room { 0 < length buf.old }
        requires not_ended { ended self.old ≡ false }
        ensures bound { IfOk result (λ n. n ≤ length buf.new) }
        ensures bytes { IfOk result (λ n. Loses (left self.old) (left self.new) (take n buf.new)) }
        ensures end { IfOk result (λ n. n ≡ 0 → AtEnd (left self.old)) }
        ensures not_ended { IfOk result (λ n. 0 < n → ended self.new ≡ false) }
        ensures err_not_ended { OnErr result (ended self.new ≡ false) }
        ensures err { OnErr result (left self.new ≡ left self.old) }
        ensures cause { HasCause (faults self.old) (faults self.new) result };
}

/// A sink of bytes.
pub trait Sink {
    /// The bytes taken so far, where the sink tells them.
    ghost got: { Self → Option (List ℕ) };

    /// How often the sink has failed. The count never falls.
    ghost faults: { Self → ℕ };

    /// Gives the sink a piece that isn't empty. It takes at least one byte from the front and
    /// answers how many.
    fn put(&mut self, piece: &[u8]) -> Result<usize, Failed>
        requires { 0 < length piece.now }
        ensures some { IfOk result (λ n. 0 < n) }
        ensures bound { IfOk result (λ n. n ≤ length piece.now) }
        ensures bytes { IfOk result (λ n. Gains (got self.old) (got self.new) (take n piece.now)) }
        ensures err { OnErr result (got self.new ≡ got self.old) }
        ensures cause { HasCause (faults self.old) (faults self.new) result };
}

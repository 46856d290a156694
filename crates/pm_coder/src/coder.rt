//! What an encoder and a decoder have in common, so that one routine makes a value's choices and
//! reads them.
ghost use Rattle.std.specs.Prelude.{◌≡◌, Bool, IfOk, IfErr};
ghost use Rattle.pm_coder.specs.Intervals.{choice};
ghost use Rattle.pm_coder.specs.Coders.{Coding, May, made, IsWriting};

use crate::decoder::{Cut, Decoder};
use crate::encoder::Encoder;

/// Why a choice wasn't made.
#[derive(Clone, Copy, Debug, PartialEq, Eq)]
pub enum Fault {
    /// The code bytes end too early. Only who reads answers it.
    Cut,
    /// Only who writes answers it.
    OutOfMemory,
}

/// Who writes choices, or who reads them.
pub trait Coder {
    /// Which of the two, and how far it is.
    ghost coding: { Self → Coding };

    /// Makes a choice. Who writes makes the one that is wanted; who reads answers what the code
    /// bytes say, whatever is wanted. `share` is that of `true` in 65,536ths.
    fn choose(&mut self, wanted: bool, share: u16) -> Result<bool, Fault>
        ensures made { IfOk result (λ bit. coding self.new
            ≡ made (coding self.old) (choice bit share)) }
        ensures may { IfOk result (λ bit. May (coding self.old) (choice bit share)) }
        ensures wanted { IfOk result (λ bit. IsWriting (coding self.old) → bit ≡ wanted) }
        ensures cut { IfErr result (λ e. e ≡ Fault.Cut → (bit : Bool)
            → ¬ May (coding self.old) (choice bit share)) }
        ensures memory { IfErr result (λ e. e ≡ Fault.OutOfMemory → IsWriting (coding self.old)) };
}

impl Coder for Encoder {
    ghost use Rattle.pm_coder.specs.Coders.{Coding, Writing};

    ghost coding = { λ p. Writing p };

    fn choose(&mut self, wanted: bool, share: u16) -> Result<bool, Fault> {
        match self.encode(wanted, share) {
            Ok(()) => Ok(wanted),
            Err(_) => Err(Fault::OutOfMemory),
        }
    }
}

impl<'a> Coder for Decoder<'a> {
    ghost use Rattle.pm_coder.specs.Coders.{Coding, Reading};

    ghost coding = { λ p. Reading p };

    fn choose(&mut self, _wanted: bool, share: u16) -> Result<bool, Fault> {
        match self.decode(share) {
            Ok(bit) => Ok(bit),
            Err(Cut) => Err(Fault::Cut),
        }
    }
}

//! The laws of fits.
ghost use Rattle.pm_fits.specs.Laws.{LeavesKeepTheirs, InputsComeBack, FitsLieBetween};
ghost use Rattle.pm_fits.specs.Laws.{EqualNumbersStay, ChannelsStandTogether};

/// States the laws of fits, which hold for every hierarchy of the right shape. It does nothing, and
/// callers cite its clauses.
pub fn fits_are_sound()
    ensures leaves { LeavesKeepTheirs }
    ensures inputs { InputsComeBack }
    ensures between { FitsLieBetween }
    ensures equal { EqualNumbersStay }
    ensures channels { ChannelsStandTogether }
{}

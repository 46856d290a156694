//! The theory of the range coder: what is written is read back.
ghost use Rattle.pm_coder.specs.Laws.{
  CodesAreReadBack,
  CutCodesAreRefused,
  CodesAreShort,
  ChoicesAreSettled,
  ChoicesTakeFew,
};
ghost use Rattle.pm_coder.specs.RoundTrips.{
  MadeAreRead,
  ReadersGoOneWay,
  PartsJoin,
  PartsFollow,
  UniformsPart,
  GuessesPart,
  HalvingsDiffer,
  NumbersDiffer,
};

use crate::predictor::Predictor;

/// The laws of code bytes, for any function that gives shares from the choices so far. It does
/// nothing, and callers cite its clauses.
pub fn codes_are_read_back()
    ensures read_back { CodesAreReadBack }
    ensures cut { CutCodesAreRefused }
    ensures short { CodesAreShort }
    ensures settled { ChoicesAreSettled }
    ensures few { ChoicesTakeFew }
{}

/// The laws by which one routine for both directions gives back its values. It does nothing, and
/// callers cite its clauses.
pub fn values_are_read_back()
    ensures made { MadeAreRead }
    ensures one_way { ReadersGoOneWay }
    ensures join { PartsJoin }
    ensures follow { PartsFollow }
    ensures uniform { UniformsPart }
    ensures halvings { HalvingsDiffer }
    ensures numbers { NumbersDiffer }
{}

/// The law of values that are guessed. It does nothing, and callers cite its clause.
pub fn guesses_are_read_back<P: Predictor>(predictor: &P)
    ensures { GuessesPart P.Predictor predictor.now }
{
    let _ = predictor;
}

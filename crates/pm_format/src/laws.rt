//! The law that a stream has one meaning.
ghost use Rattle.pm_format.specs.Laws.{OneSpelling, NoPrefix, WhatHasNoFaultIsWhole};
ghost use Rattle.pm_format.specs.Laws.{WholeTextsHaveNoFault, TextsTellTheirDigits, FaultsStay};
ghost use Rattle.pm_format.specs.Laws.{CutTextsAreTruncated};

/// Laws of stream texts, which take no step: each hierarchy, with its number of decimals, has one
/// spelling; no stream text is a proper prefix of another; and bytes have no fault exactly where
/// they begin with the text of a hierarchy of the right shape. A fault is told by the bytes up to
/// the unit that has it, and a text that is cut off has no other fault.
pub fn streams_are_sound()
    ensures one_spelling { OneSpelling }
    ensures no_prefix { NoPrefix }
    ensures accepted { WhatHasNoFaultIsWhole }
    ensures whole { WholeTextsHaveNoFault }
    ensures digits { TextsTellTheirDigits }
    ensures stay { FaultsStay }
    ensures cut_off { CutTextsAreTruncated }
{}

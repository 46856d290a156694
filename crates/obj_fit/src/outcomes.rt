//! The laws of outcomes.
ghost use Rattle.obj_fit.specs.Laws.{
  OnePreparedText,
  TextsAreRead,
  TextsLeadBack,
  TextsAreAccounted,
  TextsComeBack,
  FitScansStay,
  FitTextsStay,
};

/// The laws of outcomes, which takes no step: a text has one outcome for a size or none, and one
/// place that decides it; what is written is read as the mesh that was made; its first line leads
/// back from places to the points that were read, within half a step; the numbers that are said
/// account for each vertex and triangle; it comes back where it is prepared again without a size;
/// what needs nothing comes back as it is, for each size and for none; and so does the OBJ text of
/// a mesh on the grid, with nothing said of it but closed surfaces that look inward and faces
/// without area.
pub fn outcomes_are_sound()
    ensures one { OnePreparedText }
    ensures read { TextsAreRead }
    ensures back { TextsLeadBack }
    ensures accounts { TextsAreAccounted }
    ensures again { TextsComeBack }
    ensures stays { FitScansStay }
    ensures fit { FitTextsStay }
{}

//! The laws of preparing.
ghost use Rattle.obj_prepare.specs.Laws.{NearestIsNearest, PlacesLeadBack, PlacesAreWithin};
ghost use Rattle.obj_prepare.specs.Laws.{PreparedAreOne, NotesAreOne, AccountsClose, FitMeshesStay};
ghost use Rattle.obj_prepare.specs.Laws.{PreparedStays};
ghost use Rattle.obj_prepare.specs.Became.{TrianglesAreTold};

/// The laws of what is placed and prepared, which takes no step: rounding gives the nearest whole
/// number; places lead back to the points that were read; and of placed vertices and triangles one
/// mesh is made, which stays, and for each of them is
/// accounted.
pub fn prepared_are_sound()
    ensures nearest { NearestIsNearest }
    ensures back { PlacesLeadBack }
    ensures within { PlacesAreWithin }
    ensures one { PreparedAreOne }
    ensures notes { NotesAreOne }
    ensures accounts { AccountsClose }
    ensures triangles { TrianglesAreTold }
    ensures fit { FitMeshesStay }
    ensures again { PreparedStays }
{}

//! The laws of twins and fans.
ghost use Rattle.pm_twins.specs.Laws.{
  SidesAreCorners,
  MeshesStand,
  TwinsAreFound,
  TwinsAreMutual,
  PairsAreDistinct,
  FansAreRounds,
  OneBorderSideEach,
  FansCloseInside,
  NoTwoFacesAlike,
};

/// The laws of twins and fans, which takes no step. Those of fans hold of every oriented manifold.
pub fn meshes_are_sound()
    ensures sides { SidesAreCorners }
    ensures whole { MeshesStand }
    ensures found { TwinsAreFound }
    ensures back { TwinsAreMutual }
    ensures pairs { PairsAreDistinct }
    ensures rounds { FansAreRounds }
    ensures borders { OneBorderSideEach }
    ensures inside { FansCloseInside }
    ensures apart { NoTwoFacesAlike }
{}

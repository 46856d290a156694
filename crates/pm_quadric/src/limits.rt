//! How great the values of planes and the sums of quadrics can be: 128 bits hold each with room.
ghost use Rattle.std.specs.Prelude.{◌<◌, ◌≤◌, ◌*◌, ◌^◌, List, length};
ghost use Rattle.pm_base.specs.Place.{Place, IsPlace};
ghost use Rattle.pm_quadric.specs.declared.quadric.TheConstants.{MOST_PLANES};
ghost use Rattle.pm_quadric.specs.Planes.{Plane, IsFacePlane, AreFacePlanes, squared_value};
ghost use Rattle.pm_quadric.specs.Planes.{squares_of};
ghost use Rattle.pm_quadric.specs.Sums.{sums_of};
ghost use Rattle.pm_quadric.specs.Quadrics.{IsSmall};

/// A law on planes of faces, which takes no step: the square of a plane's value at a point is below
/// 2^102, the values of the planes that a quadric can stand for sum to less than 2^124, and the ten
/// sums are as small as `IsSmall` says.
pub fn values_fit()
    ensures plane { (f : Plane) (p : Place) → IsFacePlane f → IsPlace p
        → squared_value f p < 2 ^ 102 }
    ensures planes { (fs : List Plane) (p : Place) → AreFacePlanes fs → IsPlace p
        → squares_of fs p ≤ length fs * 2 ^ 102 }
    ensures quadric { (fs : List Plane) (p : Place) → AreFacePlanes fs → length fs ≤ MOST_PLANES
        → IsPlace p → squares_of fs p < 2 ^ 124 }
    ensures sums { (fs : List Plane) → AreFacePlanes fs → length fs ≤ MOST_PLANES
        → IsSmall (sums_of fs) }
{}

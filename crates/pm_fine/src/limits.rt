//! How great the values of fine planes and the sums of fine quadrics can be, and what roots are.
ghost use Rattle.std.specs.Prelude.{ℕ, ◌<◌, ◌≤◌, ◌^◌, List, length};
ghost use Rattle.pm_base.specs.Place.{Place, IsPlace};
ghost use Rattle.pm_quadric.specs.Planes.{Plane, squared_value, squares_of};
ghost use Rattle.pm_quadric.specs.Sums.{sums_of};
ghost use Rattle.pm_fine.specs.declared.fine_quadric.TheConstants.{MOST_FINE_PLANES};
ghost use Rattle.pm_fine.specs.Rounded.{root, IsRoot};
ghost use Rattle.pm_fine.specs.FinePlanes.{IsFinePlane, AreFinePlanes};
ghost use Rattle.pm_fine.specs.FineSums.{IsFineSmall};

/// A law on fine planes, which takes no step: the square of a plane's value at a point is below
/// 2^90, the values of the planes that a fine quadric can stand for sum to less than 2^114, and the
/// ten sums are as small as `IsFineSmall` says. A root is the greatest whole number whose square
/// isn't too great.
pub fn fine_values_fit()
    ensures plane { (f : Plane) (p : Place) → IsFinePlane f → IsPlace p
        → squared_value f p < 2 ^ 90 }
    ensures quadric { (fs : List Plane) (p : Place) → AreFinePlanes fs
        → length fs ≤ MOST_FINE_PLANES → IsPlace p → squares_of fs p < 2 ^ 115 }
    ensures sums { (fs : List Plane) → AreFinePlanes fs → length fs ≤ MOST_FINE_PLANES
        → IsFineSmall (sums_of fs) }
    ensures roots { (n : ℕ) → IsRoot n (root n) }
{}

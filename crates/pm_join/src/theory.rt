//! The law of tiles.
ghost use Rattle.pm_join.specs.Tiles.{TilesShowTheWhole};

/// States that tiles which `simplify --keep-border` made of the pieces of an oriented manifold show
/// one together, with the border of what was cut, whatever scripts do with them. It does nothing,
/// and callers cite its clause.
pub fn tiles_show_the_whole()
    ensures whole { TilesShowTheWhole }
{}

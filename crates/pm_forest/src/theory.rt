//! The theory of fronts: what a front is to the leaves and faces of its hierarchy, and what one
//! split or collapse changes (Hoppe 1997).
ghost use Rattle.pm_forest.specs.Laws.{
  EachLeafHasOneAncestor,
  FrontsHavePrefixes,
  SplitsMoveTheirLeaves,
  CollapsesMoveTheirLeaves,
  LowerRecordsAreFronts,
  KeptExactlyWhereRevealed,
  TestsDecide,
};
ghost use Rattle.pm_forest.specs.Meshes.{InputMeshesFollowNumbers};

/// States the laws of fronts, which hold for every hierarchy of the right shape. It does nothing,
/// and callers cite its clauses.
pub fn fronts_are_sound()
    ensures one_ancestor { EachLeafHasOneAncestor }
    ensures prefixes { FrontsHavePrefixes }
    ensures splits { SplitsMoveTheirLeaves }
    ensures collapses { CollapsesMoveTheirLeaves }
    ensures lower { LowerRecordsAreFronts }
    ensures kept { KeptExactlyWhereRevealed }
    ensures tests { TestsDecide }
{}

/// States the law of input meshes: the input numbers of leaves and faces leave none out, and the
/// mesh has each leaf and face at its own. It does nothing, and callers cite its clause.
pub fn input_meshes_are_sound()
    ensures { InputMeshesFollowNumbers }
{}

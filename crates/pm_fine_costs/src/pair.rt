//! The two quadrics of a vertex.
ghost use Rattle.std.specs.Prelude.{◌≡◌};
ghost use Rattle.pm_fine_costs.specs.FineCosts.{no_quadrics};

use pm_fine::FineQuadric;

/// The quadric of the planes that a vertex was brought, and that of all its planes: those that it
/// took, and these.
#[derive(Clone, Copy)]
pub(crate) struct BothQuadrics {
    pub(crate) brought: FineQuadric,
    pub(crate) all: FineQuadric,
}

impl BothQuadrics {
    /// Those of no plane.
    pub(crate) fn zero() -> BothQuadrics
        ensures { result ≡ no_quadrics }
    {
        BothQuadrics {
            brought: FineQuadric::zero(),
            all: FineQuadric::zero(),
        }
    }
}

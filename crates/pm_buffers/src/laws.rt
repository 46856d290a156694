//! No change of a buffer writes fewer slots.
ghost use Rattle.pm_buffers.specs.Laws.{WritesAreFewest};

/// A buffer that shows what is shown after a change differs from the one before it in as many
/// slots as the longer list has items, or in more.
pub fn writes_are_fewest()
    ensures { WritesAreFewest }
{}

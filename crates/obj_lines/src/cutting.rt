//! The law that however a text is cut, the same lines come out.
ghost use Rattle.obj_lines.specs.Cuttings.{AnyCutting, AnyCuttingStops};

/// However a text is cut into pieces, the lines that come out are those of its bytes, and so are
/// their numbers. A line that is told to be too long is the first one that is.
pub fn any_cutting()
    ensures lines { AnyCutting }
    ensures too_long { AnyCuttingStops }
{}

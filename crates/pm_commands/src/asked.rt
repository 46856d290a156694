//! What a program that runs the commands is asked for.

/// What becomes of the border of a mesh that is simplified.
#[derive(Clone, Copy, Debug, PartialEq, Eq)]
pub enum Border {
    /// Its vertices may be collapsed as all others.
    Free,
    /// None of its vertices is collapsed.
    Kept,
}

/// What is asked for, by words of a command line.
#[derive(Clone, Copy, Debug, PartialEq, Eq)]
pub enum Asked {
    /// `canon` and `canon --digits D`: the canonical text of an OBJ text, with so many decimals;
    /// with none by `canon` alone.
    Canon(u32),
    /// `build`, `build N` and `build N --digits D`: the stream of an OBJ text's mesh, simplified to
    /// this number of faces, with so many decimals; to none and with none by `build` alone.
    Build(u32, u32),
    /// `expand`: the canonical text of the mesh that a stream was made from.
    Expand,
    /// `check`: how large a stream's hierarchy is.
    Check,
    /// `view B`: a stream and its script, with this budget of moves a view.
    View(u32),
    /// `live B`: the same, with more lines for a viewer that stays.
    Live(u32),
    /// `demo N`: the summary of the grid of N times N cells, N from 1 to 256.
    Demo(u32),
    /// `N --digits D --keep-border` of the program `simplify`: the stream of an OBJ text's mesh,
    /// simplified to this number of faces, with so many decimals, its border kept or not.
    Simplify(u32, u32, Border),
}

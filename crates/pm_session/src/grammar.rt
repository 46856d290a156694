//! Which lines a script may have.

/// Which lines a script may have.
#[derive(Clone, Copy, Debug, PartialEq, Eq)]
pub enum Grammar {
    /// Those of `view`.
    View,
    /// Those of `view`, and `d`, `l`, `b N`, `vd ..` and `vds ..`.
    Live,
}

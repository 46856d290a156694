//! What steps along an axis leaves take, where they stand on a grid.
ghost use Rattle.std.specs.Prelude.{◌≡◌, ◌≤◌, ◌<◌, ◌==◌, ◌&&◌, not};
ghost use Rattle.pm_pack.specs.Grids.{place_of, word_of, axis, no_grid, stepped, moves};
ghost use Rattle.pm_pack.specs.Grids.{input_stepped, placed, pair_stepped, pair_moves, pair_inputs};
ghost use Rattle.pm_pack.specs.Grids.{with_pair, with_leaf, snapped, near, input_along, input_by};
ghost use Rattle.pm_pack.specs.Grids.{is_grid};

use crate::past::Node;
use crate::word::{ahead, moved_ahead};

/// The last difference of two leaves along an axis, the step where two in turn were that, else 0,
/// the place of the last leaf, and how far the input words of leaves a step apart are apart.
#[derive(Clone, Copy)]
pub(crate) struct Axis {
    pub(crate) last: u32,
    pub(crate) step: u32,
    pub(crate) place: u32,
    pub(crate) input: u32,
}

impl Axis {
    // After a step from one place to another.
    #[tactic(auto, unfolding(crate::specs::Grids::stepped))]
    fn stepped(self, from: u32, to: u32) -> Axis
        ensures { result ≡ stepped self from to }
    {
        let far = from.abs_diff(to);
        if from == to {
            self
        } else if far == self.last {
            axis_of(self.last, self.last, self.place, self.input)
        } else if self.step == 0 {
            axis_of(far, 0, self.place, self.input)
        } else {
            axis_of(self.last, 0, self.place, self.input)
        }
    }

    // 1 where a step along this axis leads from one place to the other.
    fn moves(self, from: u32, to: u32) -> u32
        ensures value { result ≡ moves self from to }
        ensures most { result ≤ 1 }
    {
        if self.step == 0 || from == to { 0 } else { 1 }
    }

    // After the input words of two leaves at these places.
    #[tactic(auto, unfolding(crate::specs::Grids::input_stepped))]
    fn input_stepped(self, from: u32, to: u32, first: u32, second: u32) -> Axis
        ensures { result ≡ input_stepped self from to first second }
    {
        if self.step == 0 || from == to {
            return self;
        }
        let input = if from < to {
            ahead(first, second)
        } else {
            ahead(second, first)
        };
        axis_of(self.last, self.step, self.place, input)
    }

    fn placed(self, place: u32) -> Axis
        ensures { result ≡ placed self place }
    {
        axis_of(self.last, self.step, place, self.input)
    }

    // The place of the grid that is nearest.
    #[tactic(auto, unfolding(crate::specs::Grids::snapped))]
    fn snapped(self, place: u32) -> u32
        requires { 0 < self.step }
        ensures { result ≡ snapped self place }
    {
        let first = self.place % self.step;
        let above = place.saturating_add(self.step / 2).saturating_sub(first);
        first.saturating_add(above.saturating_sub(above % self.step))
    }

    /// Whether leaves take steps along this axis.
    pub(crate) fn is_grid(self) -> bool
        ensures { result ≡ not (self.step == 0) }
    {
        self.step != 0
    }

    /// The guessed word of the coordinate of a node of so many leaves.
    #[tactic(auto, unfolding(crate::specs::Grids::near))]
    pub(crate) fn near(self, width: u32, word: u32) -> u32
        ensures { result ≡ near self width word }
    {
        if width == 1 && self.step != 0 {
            word_of(self.snapped(place_of(word)))
        } else {
            word
        }
    }

    // The input word by the steps from the last leaf.
    #[tactic(auto, unfolding(crate::specs::Grids::input_along))]
    fn input_along(self, place: u32, input: u32) -> u32
        ensures { result ≡ input_along self place input }
    {
        if self.step == 0 {
            return input;
        }
        let steps = ahead(self.place / self.step, place / self.step);
        moved_ahead(input, steps.wrapping_mul(self.input))
    }
}

fn axis_of(last: u32, step: u32, place: u32, input: u32) -> Axis
    ensures { result ≡ axis last step place input }
{
    Axis {
        last,
        step,
        place,
        input,
    }
}

/// The axes, and the input word of the last leaf.
#[derive(Clone, Copy)]
pub(crate) struct Grid {
    pub(crate) x: Axis,
    pub(crate) y: Axis,
    pub(crate) z: Axis,
    pub(crate) input: u32,
}

impl Grid {
    pub(crate) fn new() -> Grid
        ensures { result ≡ no_grid }
    {
        Grid {
            x: axis_of(0, 0, 0, 0),
            y: axis_of(0, 0, 0, 0),
            z: axis_of(0, 0, 0, 0),
            input: 0,
        }
    }

    // After the steps of a pair of leaves.
    fn pair_stepped(self, t: Node, u: Node) -> Grid
        ensures { result ≡ pair_stepped self t u }
    {
        Grid {
            x: self.x.stepped(place_of(t.x), place_of(u.x)),
            y: self.y.stepped(place_of(t.y), place_of(u.y)),
            z: self.z.stepped(place_of(t.z), place_of(u.z)),
            input: self.input,
        }
    }

    // Along how many axes they moved.
    fn pair_moves(self, t: Node, u: Node) -> u32
        ensures { result ≡ pair_moves self t u }
    {
        let along_x = self.x.moves(place_of(t.x), place_of(u.x));
        let along_y = self.y.moves(place_of(t.y), place_of(u.y));
        let along_z = self.z.moves(place_of(t.z), place_of(u.z));
        along_x + along_y + along_z
    }

    // After their input words.
    fn pair_inputs(self, t: Node, u: Node, first: u32, second: u32) -> Grid
        ensures { result ≡ pair_inputs self t u first second }
    {
        Grid {
            x: (self.x).input_stepped(place_of(t.x), place_of(u.x), first, second),
            y: (self.y).input_stepped(place_of(t.y), place_of(u.y), first, second),
            z: (self.z).input_stepped(place_of(t.z), place_of(u.z), first, second),
            input: self.input,
        }
    }

    /// After a pair of leaves with these input words.
    #[tactic(auto, unfolding(crate::specs::Grids::with_pair))]
    pub(crate) fn with_pair(self, t: Node, u: Node, first: u32, second: u32) -> Grid
        ensures { result ≡ with_pair self t u first second }
    {
        let next = self.pair_stepped(t, u);
        if next.pair_moves(t, u) == 1 {
            next.pair_inputs(t, u, first, second)
        } else {
            next
        }
    }

    /// After a leaf with this input word.
    #[tactic(auto, unfolding(crate::specs::Grids::with_leaf))]
    pub(crate) fn with_leaf(self, leaf: Node, input: u32) -> Grid
        ensures { result ≡ with_leaf self leaf input }
    {
        Grid {
            x: self.x.placed(place_of(leaf.x)),
            y: self.y.placed(place_of(leaf.y)),
            z: self.z.placed(place_of(leaf.z)),
            input,
        }
    }

    /// Whether leaves take steps along an axis.
    pub(crate) fn is_grid(self) -> bool
        ensures { result ≡ is_grid self }
    {
        self.x.is_grid() || self.y.is_grid() || self.z.is_grid()
    }

    /// The input word of a leaf by the steps from the last one.
    #[tactic(auto, unfolding(crate::specs::Grids::input_by))]
    pub(crate) fn input_by(self, leaf: Node) -> u32
        ensures { result ≡ input_by self leaf }
    {
        let by_x = self.x.input_along(place_of(leaf.x), self.input);
        let by_y = self.y.input_along(place_of(leaf.y), by_x);
        self.z.input_along(place_of(leaf.z), by_y)
    }
}

/// The place that a coordinate's word is: coordinates from -32,768 on are 0 to 65,535.
#[tactic(auto, unfolding(crate::specs::Grids::place_of))]
pub(crate) fn place_of(word: u32) -> u32
    ensures value { result ≡ place_of word }
    ensures most { result ≤ 65535 }
{
    word.wrapping_add(32_768).min(65_535)
}

/// The word of a place.
#[tactic(auto, unfolding(crate::specs::Grids::word_of))]
pub(crate) fn word_of(place: u32) -> u32
    ensures { result ≡ word_of place }
{
    place.wrapping_add(4_294_934_528)
}

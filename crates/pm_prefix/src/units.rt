//! The units of the hierarchy of the first records.
ghost use Rattle.std.specs.Prelude.{◌≡◌, ◌+◌, ◌*◌, ◌^◌, ◌<◌, ◌≤◌, [], ◌∷◌, length, is_some};
ghost use Rattle.pm_base.specs.Counts.{one_if};
ghost use Rattle.pm_base.specs.declared.limits.TheConstants.{MOST_SIDES, MOST_VERTICES};
ghost use Rattle.pm_forest.specs.Forest.{leaf_count, node_count, interval_of, record_at};
ghost use Rattle.pm_forest.specs.Rules.{head_of, word_of};
ghost use Rattle.pm_forest.specs.Shaping.{next_root};
ghost use Rattle.pm_prefix.specs.Prefix.{leaf_in, width_in, input_in, root_in, face_in, base_in};
ghost use Rattle.pm_prefix.specs.Prefix.{begun_before, record_in};
ghost use Rattle.pm_prefix.specs.Tables.{whole, IsPrefix, HasCorners};

use crate::readers::{interval, roots};
use pm_base::{Point, Side};
use pm_forest::{Face, Growing, Head, Record};

/// The first `n` records of a hierarchy, and how many active nodes begin before each of its leaves
/// and before the end.
#[derive(Drop)]
pub struct Prefix<'a> {
    pub forest: &'a Growing,
    pub n: u32,
    pub begun: Vec<u32>,
}

impl Prefix<'_> {
    // How many active nodes begin before a leaf, or before the end.
    fn before(&self, x: u32) -> u32
        requires prefix { IsPrefix self.now }
        requires inside { x ≤ leaf_count (whole self.now) }
        ensures value { result ≡ begun_before (whole self.now) self.now.n x }
        ensures most { result ≤ MOST_VERTICES }
    {
        self.begun[x as usize]
    }

    // The new number of a leaf.
    fn leaf(&self, x: u32) -> u32
        requires prefix { IsPrefix self.now }
        requires inside { x < leaf_count (whole self.now) }
        ensures { result ≡ leaf_in (whole self.now) self.now.n x }
    {
        self.before(x + 1) - 1
    }

    // How many of the new leaves a node has.
    fn width(&self, node: u32) -> u32
        requires prefix { IsPrefix self.now }
        requires inside { node < node_count (whole self.now) }
        ensures { result
            ≡ width_in (whole self.now) self.now.n (interval_of (whole self.now) node) }
    {
        let (from, until) = interval(self.forest, node);
        self.before(until) - self.before(from)
    }

    // The input number of a node.
    fn input(&self, node: u32) -> u32
        requires prefix { IsPrefix self.now }
        requires inside { node < node_count (whole self.now) }
        ensures { result
            ≡ input_in (whole self.now) self.now.n (interval_of (whole self.now) node) }
    {
        if self.width(node) == 1 {
            let (from, _) = interval(self.forest, node);
            self.before(from) + 1
        } else {
            0
        }
    }

    /// Root `v`: its place, how many leaves it has, and its input number.
    pub fn root(&self, v: u32) -> ([i32; 3], u32, u32)
        requires prefix { IsPrefix self.now }
        requires inside { v < length (whole self.now).roots }
        ensures { next_root result.0 result.1 result.2 ≡ root_in (whole self.now) self.now.n v }
    {
        let root = self.forest.roots().get(v as usize);
        (coordinates(root.place), self.width(v), self.input(v))
    }

    /// A face with the new leaves at its corners, as face `f`.
    pub fn face(&self, f: u32, face: &Face) -> Face
        requires prefix { IsPrefix self.now }
        requires number { f < MOST_SIDES }
        requires corners { HasCorners (whole self.now) face.now }
        ensures { result ≡ face_in (whole self.now) self.now.n f face.now }
    {
        Face {
            a: self.leaf(face.a),
            b: self.leaf(face.b),
            c: self.leaf(face.c),
            input: f + 1,
        }
    }

    /// Base face `f`.
    pub fn base(&self, f: u32) -> Face
        requires prefix { IsPrefix self.now }
        requires inside { f < length (whole self.now).bases }
        ensures { result ≡ base_in (whole self.now) self.now.n f }
    {
        self.face(f, self.forest.bases().get(f as usize))
    }

    /// Record `k` of the hierarchy.
    pub fn record(&self, k: u32) -> &Record
        requires prefix { IsPrefix self.now }
        requires inside { k < self.now.n }
        ensures { result.now ≡ record_at (whole self.now) k }
    {
        self.forest.records().get(k as usize)
    }

    /// The head of record `k`.
    pub fn head(&self, k: u32) -> Head
        requires prefix { IsPrefix self.now }
        requires inside { k < self.now.n }
        ensures { result ≡ head_of (record_in (whole self.now) self.now.n k) }
    {
        let split = self.record(k);
        let t = roots(self.forest) + 2 * k;
        let u = t + 1;
        Head {
            s: split.s,
            width: self.width(t),
            t: coordinates(split.t.place),
            t_input: self.input(t),
            u: coordinates(split.u.place),
            u_input: self.input(u),
            presence: presence(split),
        }
    }
}

// The three coordinates of a place.
fn coordinates(place: Point) -> [i32; 3]
    ensures { result ≡ place.x ∷ place.y ∷ place.z ∷ [] }
{
    [place.x(), place.y(), place.z()]
}

// The word that tells which faces a record brings in.
fn presence(split: &Record) -> u32
    ensures { result ≡ one_if (is_some split.now.left) + 2 * one_if (is_some split.now.right) }
{
    match (&split.left, &split.right) {
        (None, None) => 0,
        (Some(_), None) => 1,
        (None, Some(_)) => 2,
        (Some(_), Some(_)) => 3,
    }
}

/// The word that names a neighbour: 0 for none.
pub fn word_of(side: Option<Side>) -> u32
    requires { word_of side < 2 ^ 32 }
    ensures { result ≡ word_of side }
{
    match side {
        None => 0,
        Some(side) => side.0 + 1,
    }
}

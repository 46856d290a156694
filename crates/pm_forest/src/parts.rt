//! What a hierarchy is made of. The names follow Hoppe 1996 and 1997: a vertex split replaces the
//! vertex s by t and u and brings in a left and a right face.
use pm_base::{Items, Point, Side};

/// How many units of each kind a hierarchy has.
#[derive(Clone, Copy, Debug, PartialEq, Eq)]
pub struct Counts {
    pub leaves: u32,
    pub roots: u32,
    pub bases: u32,
    pub records: u32,
}

/// A root of the forest: its place, the number of leaves below it, and, where it is a leaf itself,
/// its number among the input's vertices, from 1 (0 where it isn't).
#[derive(Clone, Copy, Debug, PartialEq, Eq)]
pub struct Root {
    pub place: Point,
    pub width: u32,
    pub input: u32,
}

/// A face: the leaves at its corners in cyclic order, and its number among the input's faces, from
/// 1.
#[derive(Clone, Copy, Debug, PartialEq, Eq)]
pub struct Face {
    pub a: u32,
    pub b: u32,
    pub c: u32,
    pub input: u32,
}

/// A child of a vertex split: its place, and its input number as for a root.
#[derive(Clone, Copy, Debug, PartialEq, Eq)]
pub struct Child {
    pub place: Point,
    pub input: u32,
}

/// A face that a vertex split brings in, with the sides recorded beyond its first and its second
/// outer side.
#[derive(Clone, Copy, Debug, PartialEq, Eq)]
pub struct NewFace {
    pub face: Face,
    pub first: Option<Side>,
    pub second: Option<Side>,
}

/// A vertex split: the node `s` that it splits, the number of leaves that its first child t takes,
/// the two children, and the faces that it brings in to the left and to the right of the new edge.
#[derive(Clone, Copy, Debug, PartialEq, Eq)]
pub struct Record {
    pub s: u32,
    pub width: u32,
    pub t: Child,
    pub u: Child,
    pub left: Option<NewFace>,
    pub right: Option<NewFace>,
}

/// The head of a vertex split as a stream has it. `presence` is 1 for a left face alone, 2 for a
/// right face alone and 3 for both.
#[derive(Clone, Copy, Debug, PartialEq, Eq)]
pub struct Head {
    pub s: u32,
    pub width: u32,
    pub t: [i32; 3],
    pub t_input: u32,
    pub u: [i32; 3],
    pub u_input: u32,
    pub presence: u32,
}

/// A vertex split some of whose faces are still to come.
#[derive(Clone, Copy, Debug, PartialEq, Eq)]
pub struct Unfinished {
    pub split: Record,
    pub left_due: bool,
    pub right_due: bool,
}

/// A list of roots.
pub type Roots = Items<Root>;

/// A list of faces.
pub type FaceList = Items<Face>;

/// A list of vertex splits.
pub type Records = Items<Record>;

/// Why a hierarchy is refused. Roots, base faces and records are named by their numbers from 0, and
/// a wrong input number by the number of its field among all input fields of the stream, from 0.
#[derive(Clone, Copy, Debug, PartialEq, Eq)]
pub enum Shape {
    BadCount,
    BadRoot(u32),
    BadFace(u32),
    BadRecord(u32),
    BadInput(u32),
    OutOfMemory,
}

/// What kind of unit comes next.
#[derive(Clone, Copy, Debug, PartialEq, Eq)]
pub enum UnitKind {
    Root,
    Base,
    Head,
    LeftFace,
    RightFace,
    Nothing,
}

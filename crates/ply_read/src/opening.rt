//! The properties that the element that is being declared has.
ghost use Rattle.std.specs.Prelude.{◌≡◌};
ghost use Rattle.ply_read.specs.Names.{is_whole_type};
ghost use Rattle.ply_read.specs.Opening.{opening_of, with_axis, with_corners, with_property};
ghost use Rattle.ply_read.specs.Opening.{is_complete};

use crate::declared::{Kind, Property, Role, ScalarType};

/// Which coordinates a vertex has.
#[derive(Clone, Copy, Debug, PartialEq, Eq)]
pub struct Axes {
    pub x: bool,
    pub y: bool,
    pub z: bool,
}

/// What is declared: no element yet, vertices with these coordinates, faces with or without
/// corners, or elements of another name.
#[derive(Clone, Copy, Debug, PartialEq, Eq)]
pub enum Opening {
    Nothing,
    Vertex(Axes),
    Face(bool),
    Other,
}

pub(crate) fn is_whole_type(scalar: ScalarType) -> bool
    ensures { result ≡ is_whole_type scalar }
{
    match scalar {
        ScalarType::Float32 | ScalarType::Float64 => false,
        _ => true,
    }
}

#[tactic(auto, unfolding(crate::specs::Opening::with_axis))]
fn with_axis(axes: Axes, role: Role, list: bool) -> Option<Axes>
    ensures { result ≡ with_axis axes role list }
{
    match role {
        Role::X if axes.x || list => None,
        Role::Y if axes.y || list => None,
        Role::Z if axes.z || list => None,
        Role::X => Some(Axes {
            x: true,
            y: axes.y,
            z: axes.z,
        }),
        Role::Y => Some(Axes {
            x: axes.x,
            y: true,
            z: axes.z,
        }),
        Role::Z => Some(Axes {
            x: axes.x,
            y: axes.y,
            z: true,
        }),
        _ => Some(axes),
    }
}

#[tactic(auto, unfolding(crate::specs::Opening::with_corners))]
fn with_corners(corners: bool, role: Role, fits: bool) -> Option<bool>
    ensures { result ≡ with_corners corners role fits }
{
    match role {
        Role::Corners if corners || !fits => None,
        Role::Corners => Some(true),
        _ => Some(corners),
    }
}

impl Opening {
    /// None of the properties yet.
    pub(crate) fn new(kind: Kind) -> Opening
        ensures { result ≡ opening_of kind }
    {
        match kind {
            Kind::Vertex => Opening::Vertex(Axes {
                x: false,
                y: false,
                z: false,
            }),
            Kind::Face => Opening::Face(false),
            Kind::Other => Opening::Other,
        }
    }

    /// With a property, where it may stand there.
    pub(crate) fn with_property(self, p: Property) -> Option<Opening>
        ensures { result ≡ with_property self p }
    {
        match self {
            Opening::Nothing => None,
            Opening::Vertex(axes) => {
                let axes = with_axis(axes, p.role, p.length.is_some())?;
                Some(Opening::Vertex(axes))
            }
            Opening::Face(corners) => {
                let fits = p.length.is_some() && is_whole_type(p.item);
                let corners = with_corners(corners, p.role, fits)?;
                Some(Opening::Face(corners))
            }
            Opening::Other => Some(Opening::Other),
        }
    }

    /// Whether the element has the properties that it needs.
    pub(crate) fn is_complete(self) -> bool
        ensures { result ≡ is_complete self }
    {
        match self {
            Opening::Vertex(axes) => axes.x && axes.y && axes.z,
            Opening::Face(corners) => corners,
            _ => true,
        }
    }
}

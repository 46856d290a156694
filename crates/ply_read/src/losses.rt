//! What of the elements that a header declares is passed over.
ghost use Rattle.std.specs.Prelude.{◌≡◌};
ghost use Rattle.ply_read.specs.Losses.{none_lost, of_vertices, of_faces, with_property};
ghost use Rattle.ply_read.specs.Losses.{with_elements, losses_of};

use crate::declared::{Declared, Element, Kind, Role};

/// How much is passed over by what the header declares, up to 4,294,967,295: vertices with a
/// normal, with a colour and with a texture coordinate, and faces with one; other properties of
/// vertices and of faces, where there are any of these; and elements that are neither.
#[derive(Clone, Copy, Debug, PartialEq, Eq)]
pub struct Losses {
    pub normals: u32,
    pub colours: u32,
    pub textures: u32,
    pub face_textures: u32,
    pub properties: u32,
    pub elements: u32,
}

impl Losses {
    fn new() -> Losses
        ensures { result ≡ none_lost }
    {
        Losses {
            normals: 0,
            colours: 0,
            textures: 0,
            face_textures: 0,
            properties: 0,
            elements: 0,
        }
    }

    // Counts a property of so many vertices.
    fn take_of_vertices(&mut self, count: u32, role: Role)
        ensures { self.new ≡ of_vertices self.old count role }
    {
        match role {
            Role::X | Role::Y | Role::Z => {}
            Role::Normal => self.normals = count,
            Role::Colour => self.colours = count,
            Role::Texture => self.textures = count,
            _ => self.properties = self.properties.saturating_add(1),
        }
    }

    // Counts a property of so many faces.
    fn take_of_faces(&mut self, count: u32, role: Role)
        ensures { self.new ≡ of_faces self.old count role }
    {
        match role {
            Role::Corners => {}
            Role::Texture => self.face_textures = count,
            _ => self.properties = self.properties.saturating_add(1),
        }
    }

    // Counts a property of these elements, if there are any.
    fn take_property(&mut self, el: Element, role: Role)
        ensures { self.new ≡ with_property self.old el role }
    {
        if el.count == 0 {
            return;
        }
        match el.kind {
            Kind::Vertex => self.take_of_vertices(el.count, role),
            Kind::Face => self.take_of_faces(el.count, role),
            Kind::Other => {}
        }
    }

    // Counts elements, if they are passed over.
    fn take_elements(&mut self, el: Element)
        ensures { self.new ≡ with_elements self.old el.kind el.count }
    {
        if el.kind == Kind::Other {
            self.elements = self.elements.saturating_add(el.count);
        }
    }
}

/// What of all that is declared is passed over. Linear in the lines of the header.
#[tactic(auto, using(crate::proofs::LossLaws::losses_element, crate::proofs::LossLaws::losses_property, crate::proofs::LossLaws::losses_end))]
pub(crate) fn losses_of(declared: &[Declared]) -> Losses
    ensures { result ≡ losses_of declared.now }
{
    let mut losses = Losses::new();
    let mut element = Element {
        kind: Kind::Other,
        count: 0,
    };
    for d in declared {
        match d {
            Declared::Element(next) => {
                losses.take_elements(*next);
                element = *next;
            }
            Declared::Property(p) => losses.take_property(element, p.role),
        }
    }
    losses
}

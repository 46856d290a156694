//! Which vertices and faces of the input nodes and faces are.
ghost use Rattle.std.specs.Prelude.{◌≡◌, ◌≤◌, ◌*◌, OnOk, OnErr, length};
ghost use Rattle.pm_forest.specs.Faces.{face_count};
ghost use Rattle.pm_viewer.specs.Inputs.{InputsFit, AreInputsOf};

use crate::filling::TooSmall;
use crate::viewer::Viewer;
use pm_paint::{write_faces, write_vertices};

impl Viewer {
    /// How many faces the mesh of all leaves has, which are those of the input.
    pub fn faces(&self) -> u32
        ensures { result ≡ face_count self.now.shown.h }
    {
        self.hierarchy().faces()
    }

    /// Writes to the front of `by_node`, for each node by number, which vertex of the input it is,
    /// counted from 0, and `pm_paint::NO_VERTEX` for a node of more than one leaf; and to the front
    /// of `by_face`, for each face by number, which face of the input it is, counted from 0. They
    /// are the same whatever is shown. It is refused exactly where an array has less room, and
    /// nothing is written then. It costs a pass over all nodes and faces, and takes no memory.
    pub fn inputs(&self, by_node: &mut [u32], by_face: &mut [u32]) -> Result<(), TooSmall>
        ensures fits { OnOk result (InputsFit self.now.shown.h
            (length by_node.old) (length by_face.old)) }
        ensures refused { OnErr result (InputsFit self.now.shown.h
            (length by_node.old) (length by_face.old) → ⊥) }
        ensures told { OnOk result (AreInputsOf self.now.shown.h
            by_node.old by_face.old by_node.new by_face.new) }
        ensures unwritten { OnErr result ((by_node.new ≡ by_node.old)
            × (by_face.new ≡ by_face.old)) }
    {
        let h = self.hierarchy();
        let nodes = h.nodes() as usize;
        let faces = h.faces() as usize;
        if by_node.len() < nodes || by_face.len() < faces {
            return Err(TooSmall);
        }
        write_vertices(h, &mut by_node[..nodes]);
        write_faces(h, &mut by_face[..faces]);
        Ok(())
    }
}

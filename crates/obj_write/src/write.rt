//! Writing the canonical OBJ text of a mesh.
ghost use Rattle.std.specs.Prelude.{◌≤◌};
ghost use Rattle.std.specs.List.{flat_map};
ghost use Rattle.pm_base.specs.Canonical.{point_line, corner_line, canonical_text};
ghost use Rattle.pm_base.specs.Meshes.{IsWellFormed, mesh_of};
ghost use Rattle.pm_io.specs.Puts.{Puts, PutsThrough};

use crate::line::{put_corners, put_point};
use pm_base::Mesh;
use pm_io::{Line, Page, Sink, WriteFault};

fn put_points<K: Sink>(
    mesh: &Mesh,
    digits: u32,
    page: &mut Page,
    out: &mut K,
) -> Result<(), WriteFault>
    requires { digits ≤ 4 }
    ensures { let text = flat_map (point_line digits) mesh.now.points.items in
        PutsThrough K.Sink out.old out.new page.old page.new text result }
{
    let mut line = Line::new();
    for point in mesh.points.as_slice() {
        put_point(&mut line, digits, point);
        page.add(line.as_slice(), out)?;
    }
    Ok(())
}

fn put_faces<K: Sink>(mesh: &Mesh, page: &mut Page, out: &mut K) -> Result<(), WriteFault>
    requires { IsWellFormed (mesh_of mesh.now) }
    ensures { let text = flat_map corner_line mesh.now.faces.items in
        PutsThrough K.Sink out.old out.new page.old page.new text result }
{
    let mut line = Line::new();
    for corners in mesh.faces.as_slice() {
        put_corners(&mut line, corners);
        page.add(line.as_slice(), out)?;
    }
    Ok(())
}

/// Writes the canonical text of a well-formed mesh: a line for each point, and then one for each
/// face. Coordinates are written with so many decimals, at most four; the mesh has them in units of
/// 10 to the power -digits. After a fault the sink has gained a part of the text from its front,
/// and not the whole.
///
/// The text is put in pages of 32,768 bytes, of which the last may be shorter. It takes no memory.
#[tactic(auto, unfolding(pm_base::specs::Canonical::canonical_text))]
pub fn write_obj<K: Sink>(mesh: &Mesh, digits: u32, out: &mut K) -> Result<(), WriteFault>
    requires few { digits ≤ 4 }
    requires formed { IsWellFormed (mesh_of mesh.now) }
    ensures { Puts K.Sink out.old out.new (canonical_text digits (mesh_of mesh.now)) result }
{
    let mut page = Page::new();
    put_points(mesh, digits, &mut page, out)?;
    put_faces(mesh, &mut page, out)?;
    page.flush(out)?;
    Ok(())
}

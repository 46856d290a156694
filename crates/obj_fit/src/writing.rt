//! Writing what was made.
ghost use Rattle.pm_base.specs.Meshes.{IsWellFormed, mesh_of};
ghost use Rattle.pm_io.specs.Puts.{Puts};
ghost use Rattle.obj_fit.specs.Making.{done_of};

use crate::making::Made;
use obj_write::write_obj;
use pm_io::{Sink, WriteFault, put_all};

/// Writes the line that tells how places lead back, and the canonical text of the mesh.
pub fn write_made<K: Sink>(made: &Made, out: &mut K) -> Result<(), WriteFault>
    requires { IsWellFormed (mesh_of made.now.mesh) }
    ensures { Puts K.Sink out.old out.new (done_of made.now).text result }
{
    put_all(out, &made.head)?;
    write_obj(&made.mesh, 0, out)?;
    Ok(())
}

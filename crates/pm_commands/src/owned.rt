//! The last that a command does with what it has made. Each function here owns that and drops it at
//! its only end: a command, which has many, would be slow to prove if it dropped tables at each.
ghost use Rattle.std.specs.Prelude.{◌≡◌, ◌≤◌, IfOk};
ghost use Rattle.pm_base.specs.Canonical.{canonical_text};
ghost use Rattle.pm_base.specs.Meshes.{IsWellFormed, mesh_of};
ghost use Rattle.pm_io.specs.Puts.{Puts};
ghost use Rattle.pm_forest.specs.Meshes.{input_mesh_of};
ghost use Rattle.pm_format.specs.Stream.{stream};
ghost use Rattle.pm_commands.specs.Outcome.{counts_line};

use crate::line::put_counts;
use obj_write::write_obj;
use pm_base::Mesh;
use pm_forest::Hierarchy;
use pm_format::encode;
use pm_io::{Line, Sink, WriteFault};
use pm_twins::Surface;
use std::alloc::{AllocError, Global};

/// Writes the stream text of a hierarchy, with so many decimals a coordinate.
pub fn put_stream<K: Sink>(h: Hierarchy, digits: u32, out: &mut K) -> Result<(), WriteFault>
    requires { digits ≤ 4 }
    ensures { Puts K.Sink out.old out.new (stream digits h) result }
{
    encode(&h, digits, out)
}

/// The mesh that a hierarchy was made from.
pub fn input_mesh(alloc: Global, h: Hierarchy) -> Result<Mesh, AllocError>
    ensures mesh { IfOk result (λ mesh. mesh_of mesh ≡ input_mesh_of h) }
    ensures formed { IsWellFormed (input_mesh_of h) }
{
    h.input_mesh(alloc)
}

/// Writes the canonical text of a mesh, with so many decimals a coordinate.
pub fn put_mesh<K: Sink>(mesh: Mesh, digits: u32, out: &mut K) -> Result<(), WriteFault>
    requires few { digits ≤ 4 }
    requires formed { IsWellFormed (mesh_of mesh) }
    ensures { Puts K.Sink out.old out.new (canonical_text digits (mesh_of mesh)) result }
{
    write_obj(&mesh, digits, out)
}

/// The line that tells how large a hierarchy is.
pub fn counts_of(h: Hierarchy) -> Line
    ensures { result ≡ counts_line h }
{
    let mut line = Line::new();
    put_counts(&mut line, &h);
    line
}

/// Writes the canonical text of a surface's mesh, with so many decimals a coordinate.
pub fn put_surface<K: Sink>(surface: Surface, digits: u32, out: &mut K) -> Result<(), WriteFault>
    requires { digits ≤ 4 }
    ensures { Puts K.Sink out.old out.new (canonical_text digits surface) result }
{
    surface.invariant();
    write_obj(surface.mesh(), digits, out)
}

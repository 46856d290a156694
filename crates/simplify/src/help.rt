//! What the program tells of itself.
ghost use Rattle.std.specs.Prelude.{◌≡◌};
ghost use Rattle.simplify.specs.Help.{help_text};

/// What the program does, its words and its statuses.
#[tactic(auto, unfolding(crate::specs::Help::help_text))]
pub fn help_text() -> &'static [u8]
    ensures { result.now ≡ help_text }
{
    b"\
simplify makes a stream of an OBJ mesh: all its levels of detail. It reads standard\n\
input.\n\
\n\
\x20 ./simplify [N] [--digits D] [--keep-border] < mesh.obj > mesh.vdpm\n\
\n\
N is how many faces the base mesh may have, 0 where none is told; D how many decimals\n\
coordinates have, 0 to 4; --keep-border keeps the border (boundary) as it is, for\n\
tiles that have to meet.\n\
Status 0: all was written. 1: the input has a fault. 2: other words. 3: a read failed.\n\
4: a write failed. 5: out of memory. docs/commands/simplify.md tells all of it;\n\
./prepare repairs meshes.\n\
./simplify --version tells which program is run, and whether it is proved.\n"
}

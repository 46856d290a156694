//! What the program tells of itself.
ghost use Rattle.std.specs.Prelude.{◌≡◌};
ghost use Rattle.prepare.specs.Help.{help_text};

/// What the program does, its words and its statuses.
#[tactic(auto, unfolding(crate::specs::Help::help_text))]
pub fn help_text() -> &'static [u8]
    ensures { result.now ≡ help_text }
{
    b"\
prepare repairs an OBJ, PLY or STL mesh, so that it is an oriented manifold, and writes\n\
it as OBJ. It reads standard input; each change is told on standard error.\n\
\n\
\x20 ./prepare [SIZE] < scan.obj > mesh.obj\n\
\n\
With SIZE, from 1 to 32767, the longest axis goes from -SIZE to SIZE; without it\n\
coordinates that fit stay as they are.\n\
Status 0: all was written. 1: the input has a fault. 2: other words. 3: a read failed.\n\
4: a write failed. 5: out of memory. docs/commands/prepare.md tells all of it.\n\
./prepare --version tells which program is run, and whether it is proved.\n"
}

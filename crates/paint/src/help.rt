//! What the program tells of itself.
ghost use Rattle.std.specs.Prelude.{◌≡◌};
ghost use Rattle.paint.specs.Help.{help_text};

/// What the program does, its words and its statuses.
#[tactic(auto, unfolding(crate::specs::Help::help_text))]
pub fn help_text() -> &'static [u8]
    ensures { result.now ≡ help_text }
{
    b"\
paint tells what each node of a stream has of a coat, which says what the vertices\n\
and faces of the mesh have: colours, texture coordinates, pages. It reads standard\n\
input.\n\
\n\
\x20 cat mesh.vdpm mesh.coat | ./paint > mesh.lines\n\
\n\
There are no words but --help and --version. Status 0: the lines were written. 1: the\n\
input has a fault. 2: other words. 3: a read failed. 4: a write failed. 5: out of\n\
memory. docs/commands/paint.md tells all of it; ./simplify makes streams.\n\
./paint --version tells which program is run, and whether it is proved.\n"
}

//! What the program tells of itself.
ghost use Rattle.std.specs.Prelude.{◌≡◌};
ghost use Rattle.pack.specs.Help.{help_text};

/// What the program does, its words and its statuses.
#[tactic(auto, unfolding(crate::specs::Help::help_text))]
pub fn help_text() -> &'static [u8]
    ensures { result.now ≡ help_text }
{
    b"\
pack packs a stream: a sixth of its bytes or so, and it comes back byte for byte. It\n\
reads standard input.\n\
\n\
\x20 ./pack < mesh.vdpm > mesh.vdpz\n\
\x20 ./pack --unpack [--records N] < mesh.vdpz > mesh.vdpm\n\
\n\
With N the first N records come alone, or as many as a text that is cut off tells.\n\
Status 0: all was written. 1: the input has a fault. 2: other words. 3: a read failed.\n\
4: a write failed. 5: out of memory. docs/commands/pack.md tells all of it;\n\
./simplify makes streams.\n\
./pack --version tells which program is run, and whether it is proved.\n"
}

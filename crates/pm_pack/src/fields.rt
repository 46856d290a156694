//! Where in a stream text a word stands.
ghost use Rattle.std.specs.Prelude.{◌≡◌};
ghost use Rattle.pm_pack.specs.Fields.{next_unit, ends_unit, spot_after};

// The version of texts that tell their decimals, and the word of a record with two new faces.
const WITH_DIGITS: u32 = 2;

const BOTH: u32 = 3;

/// The field that the next word is, by its number in the order of a stream text, and how many
/// roots, base faces and new faces follow its unit.
#[derive(Clone, Copy)]
pub(crate) struct Spot {
    pub(crate) field: u32,
    pub(crate) roots: u32,
    pub(crate) bases: u32,
    pub(crate) faces: u32,
}

impl Spot {
    /// The first word of a text.
    pub(crate) fn first() -> Spot
        ensures { result ≡ record { field = 0; roots = 0; bases = 0; faces = 0 } }
    {
        at_field(0, 0, 0, 0)
    }

    /// After a word that is this field.
    pub(crate) fn after(self, word: u32) -> Spot
        ensures { result ≡ spot_after self word }
    {
        if self.field == 1 {
            let next = if word == WITH_DIGITS { 2 } else { 3 };
            at_field(next, self.roots, self.bases, self.faces)
        } else if self.field == 4 {
            at_field(5, word, self.bases, self.faces)
        } else if self.field == 5 {
            at_field(6, self.roots, word, self.faces)
        } else if self.field == 26 {
            next_unit(self.roots, self.bases, if word == BOTH { 2 } else { 1 })
        } else if ends_unit(self.field) {
            next_unit(self.roots, self.bases, self.faces)
        } else {
            at_field(self.field + 1, self.roots, self.bases, self.faces)
        }
    }
}

fn at_field(field: u32, roots: u32, bases: u32, faces: u32) -> Spot
    ensures { result ≡ record { field = field; roots = roots; bases = bases; faces = faces } }
{
    Spot {
        field,
        roots,
        bases,
        faces,
    }
}

// Whether a unit ends with this field.
fn ends_unit(field: u32) -> bool
    ensures { result ≡ ends_unit field }
{
    field == 6 || field == 11 || field == 15 || field >= 32
}

// The first word of the next unit, where so many of each kind follow.
fn next_unit(roots: u32, bases: u32, faces: u32) -> Spot
    ensures { result ≡ next_unit roots bases faces }
{
    if roots > 0 {
        at_field(7, roots - 1, bases, faces)
    } else if bases > 0 {
        at_field(12, roots, bases - 1, faces)
    } else if faces > 0 {
        at_field(27, roots, bases, faces - 1)
    } else {
        at_field(16, roots, bases, faces)
    }
}

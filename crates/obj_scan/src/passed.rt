//! What is passed over of a text: its kind, by the first word of its line, and how often.
ghost use Rattle.std.specs.Prelude.{◌≡◌, ◌+◌, ◌<◌};
ghost use Rattle.obj_scan.specs.Passing.{is_word, letters, is_common, is_garbled, is_group};
ghost use Rattle.obj_scan.specs.Passing.{is_material, is_element, is_curve, is_call, kind_of};
ghost use Rattle.obj_scan.specs.Passing.{counted, passed_after, passed_count, none_passed};

/// What is passed over.
#[derive(Clone, Copy, Debug, PartialEq, Eq)]
pub enum Kind {
    /// The one number after the third of a vertex, where it isn't 1.
    Weight,
    /// Three fields or more after the third of a vertex.
    Colour,
    Texture,
    Normal,
    Group,
    Material,
    /// A line or points that are drawn.
    Element,
    /// A curve or a surface, or what goes with one.
    Curve,
    /// Another file.
    Call,
    Other,
}

/// How much was passed over: vertices with a weight or a colour, lines of each kind, and which of
/// the other ones is the first, or 0. A text has nothing of what stands after that, which files of
/// other formats have.
#[derive(Clone, Copy, Debug, PartialEq, Eq)]
pub struct PassedOver {
    pub weights: u32,
    pub colours: u32,
    pub textures: u32,
    pub normals: u32,
    pub groups: u32,
    pub materials: u32,
    pub elements: u32,
    pub curves: u32,
    pub calls: u32,
    pub others: u32,
    pub first_other: u32,
    /// Of facets, what isn't 0.
    pub attributes: u32,
    /// Of vertices and faces, by other names.
    pub properties: u32,
    /// Neither vertices nor faces.
    pub other_elements: u32,
}

impl PassedOver {
    /// Nothing, as before the first line.
    pub fn new() -> PassedOver
        ensures { result ≡ none_passed }
    {
        PassedOver {
            weights: 0,
            colours: 0,
            textures: 0,
            normals: 0,
            groups: 0,
            materials: 0,
            elements: 0,
            curves: 0,
            calls: 0,
            others: 0,
            first_other: 0,
            attributes: 0,
            properties: 0,
            other_elements: 0,
        }
    }

    // Counts one more, in the line with this number.
    #[tactic(auto, unfolding(crate::specs::Passing::passed_count))]
    fn count(&mut self, line: u32, kind: Kind)
        requires { passed_count self.old < line }
        ensures value { self.new ≡ counted self.old line kind }
        ensures count { passed_count self.new ≡ passed_count self.old + 1 }
    {
        match kind {
            Kind::Weight => self.weights += 1,
            Kind::Colour => self.colours += 1,
            Kind::Texture => self.textures += 1,
            Kind::Normal => self.normals += 1,
            Kind::Group => self.groups += 1,
            Kind::Material => self.materials += 1,
            Kind::Element => self.elements += 1,
            Kind::Curve => self.curves += 1,
            Kind::Call => self.calls += 1,
            Kind::Other => {
                if self.others == 0 {
                    self.first_other = line;
                }
                self.others += 1;
            }
        }
    }

    /// Counts what is passed over of the line with this number, if anything is.
    pub(crate) fn take(&mut self, line: u32, kind: Option<Kind>)
        requires { passed_count self.old < line }
        ensures value { self.new ≡ passed_after self.old line kind }
        ensures few { passed_count self.new < line + 1 }
    {
        if let Some(kind) = kind {
            self.count(line, kind);
        }
    }
}

fn is_word(word: &[u8], field: &[u8]) -> bool
    ensures { result ≡ is_word word.now field.now }
{
    field == word
}

#[tactic(auto, unfolding(crate::specs::Passing::is_common))]
fn is_common(field: &[u8]) -> bool
    ensures { result ≡ is_common field.now }
{
    is_word(b"v", field) || is_word(b"vt", field) || is_word(b"vn", field) || is_word(b"f", field)
}

// Whether a word is left of a field without its bytes that aren't letters.
fn has_letters(field: &[u8], word: &[u8]) -> bool
    ensures { result ≡ is_word word.now (letters field.now) }
{
    let mut rest = field;
    let mut left = word;
    while let [b, after @ ..] = rest {
        rest = after;
        if b.is_ascii_alphabetic() {
            match left {
                [first, more @ ..] if first == b => left = more,
                _ => return false,
            }
        }
    }
    left.is_empty()
}

/// Whether a field is no word of a vertex, a texture place, a normal or a face, but is one without
/// its bytes that aren't letters.
#[tactic(auto, unfolding(crate::specs::Passing::is_garbled, crate::specs::Passing::is_common))]
pub(crate) fn is_garbled(field: &[u8]) -> bool
    ensures { result ≡ is_garbled field.now }
{
    !is_common(field)
        && (has_letters(field, b"v")
            || has_letters(field, b"vt")
            || has_letters(field, b"vn")
            || has_letters(field, b"f"))
}

#[tactic(auto, unfolding(crate::specs::Passing::is_group))]
fn is_group(field: &[u8]) -> bool
    ensures { result ≡ is_group field.now }
{
    is_word(b"g", field) || is_word(b"o", field) || is_word(b"s", field) || is_word(b"mg", field)
}

#[tactic(auto, unfolding(crate::specs::Passing::is_material))]
fn is_material(field: &[u8]) -> bool
    ensures { result ≡ is_material field.now }
{
    is_word(b"usemtl", field)
        || is_word(b"mtllib", field)
        || is_word(b"usemap", field)
        || is_word(b"maplib", field)
        || is_word(b"bevel", field)
        || is_word(b"c_interp", field)
        || is_word(b"d_interp", field)
        || is_word(b"lod", field)
        || is_word(b"shadow_obj", field)
        || is_word(b"trace_obj", field)
        || is_word(b"ctech", field)
        || is_word(b"stech", field)
}

#[tactic(auto, unfolding(crate::specs::Passing::is_element))]
fn is_element(field: &[u8]) -> bool
    ensures { result ≡ is_element field.now }
{
    is_word(b"l", field) || is_word(b"p", field)
}

#[tactic(auto, unfolding(crate::specs::Passing::is_curve))]
fn is_curve(field: &[u8]) -> bool
    ensures { result ≡ is_curve field.now }
{
    is_word(b"curv", field)
        || is_word(b"curv2", field)
        || is_word(b"surf", field)
        || is_word(b"vp", field)
        || is_word(b"cstype", field)
        || is_word(b"deg", field)
        || is_word(b"bmat", field)
        || is_word(b"step", field)
        || is_word(b"parm", field)
        || is_word(b"trim", field)
        || is_word(b"hole", field)
        || is_word(b"scrv", field)
        || is_word(b"sp", field)
        || is_word(b"end", field)
        || is_word(b"con", field)
}

#[tactic(auto, unfolding(crate::specs::Passing::is_call))]
fn is_call(field: &[u8]) -> bool
    ensures { result ≡ is_call field.now }
{
    is_word(b"call", field) || is_word(b"csh", field)
}

/// What a line is that is neither a vertex nor a face, by its first word.
#[tactic(auto, unfolding(crate::specs::Passing::kind_of))]
pub(crate) fn kind_of(field: &[u8]) -> Kind
    ensures { result ≡ kind_of field.now }
{
    if is_word(b"vt", field) {
        Kind::Texture
    } else if is_word(b"vn", field) {
        Kind::Normal
    } else if is_group(field) {
        Kind::Group
    } else if is_material(field) {
        Kind::Material
    } else if is_element(field) {
        Kind::Element
    } else if is_curve(field) {
        Kind::Curve
    } else if is_call(field) {
        Kind::Call
    } else {
        Kind::Other
    }
}

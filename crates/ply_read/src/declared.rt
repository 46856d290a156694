//! What a header declares.

/// Which byte of a number stands first: the least, or the greatest.
#[derive(Clone, Copy, Debug, PartialEq, Eq)]
pub enum Order {
    Little,
    Big,
}

/// How the numbers of a file are written: as words, or as bytes.
#[derive(Clone, Copy, Debug, PartialEq, Eq)]
pub enum Encoding {
    Ascii,
    Binary(Order),
}

/// The type of a number.
#[derive(Clone, Copy, Debug, PartialEq, Eq)]
pub enum ScalarType {
    Int8,
    Uint8,
    Int16,
    Uint16,
    Int32,
    Uint32,
    Float32,
    Float64,
}

/// What a property is by its name: a coordinate, the corners of a face, a part of a normal, of a
/// colour or of a texture coordinate, or none of these.
#[derive(Clone, Copy, Debug, PartialEq, Eq)]
pub enum Role {
    X,
    Y,
    Z,
    Corners,
    Normal,
    Colour,
    Texture,
    Other,
}

/// A property: a number of this type, or, where `length` has a type, a count of that type and as
/// many numbers.
#[derive(Clone, Copy, Debug, PartialEq, Eq)]
pub struct Property {
    pub role: Role,
    pub length: Option<ScalarType>,
    pub item: ScalarType,
}

/// What elements are by their name: `vertex`, `face`, or none of these.
#[derive(Clone, Copy, Debug, PartialEq, Eq)]
pub enum Kind {
    Vertex,
    Face,
    Other,
}

/// So many elements, which have the properties that are declared next.
#[derive(Clone, Copy, Debug, PartialEq, Eq)]
pub struct Element {
    pub kind: Kind,
    pub count: u32,
}

/// A line that declares.
#[derive(Clone, Copy, Debug, PartialEq, Eq)]
pub enum Declared {
    Element(Element),
    Property(Property),
}

/// What a header tells.
#[derive(Drop)]
pub struct PlyHeader {
    pub encoding: Encoding,
    pub declared: Vec<Declared>,
}

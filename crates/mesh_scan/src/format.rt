//! Which format a file has, by its first bytes.
ghost use Rattle.std.specs.Prelude.{◌≡◌, ◌≤◌, length};
ghost use Rattle.std.specs.Char.{is_ascii_whitespace};
ghost use Rattle.std.specs.List.{prefix_len};
ghost use Rattle.mesh_scan.specs.Formats.{begins, begins_solid, is_binary_stl, is_ply, is_wide};
ghost use Rattle.mesh_scan.specs.Formats.{is_solid, scene_of, picture_of, foreign_of, after_white};
ghost use Rattle.mesh_scan.specs.Formats.{is_json, text_by, format_by};

/// So many bytes tell the format: as many as a binary STL file has before its first facet.
pub const FIRST_BYTES: usize = 84;

// Clauses and definitions cite the limit by name, so its value is said here.
const _: () = prove!(FIRST_BYTES == 84);

/// A kind of file that is known by its first bytes, and not read.
#[derive(Clone, Copy, Debug, PartialEq, Eq)]
pub enum Foreign {
    /// A glTF file, a binary one.
    Gltf,
    Off,
    Fbx,
    /// A 3D Studio file.
    ThreeDs,
    /// A ZIP archive.
    Zip,
    /// A file compressed by gzip.
    Gzip,
    Png,
    Jpeg,
    Gif,
    Tiff,
    Pdf,
    /// A text that begins with an object of JSON, as a glTF text does.
    Json,
}

/// The format of a file.
#[derive(Clone, Copy, Debug, PartialEq, Eq)]
pub enum Format {
    Obj,
    Stl,
    Ply,
    Foreign(Foreign),
}

fn begins(bytes: &[u8], word: &[u8]) -> bool
    ensures { result ≡ begins bytes.now word.now }
{
    bytes.starts_with(word)
}

#[tactic(auto, unfolding(crate::specs::Formats::is_ply))]
fn is_ply(bytes: &[u8]) -> bool
    ensures { result ≡ is_ply bytes.now }
{
    begins(bytes, b"ply\n") || begins(bytes, b"ply\r")
}

// Whether a text begins as one of 16 bits a letter.
#[tactic(auto, unfolding(crate::specs::Formats::is_wide))]
fn is_wide(bytes: &[u8]) -> bool
    ensures { result ≡ is_wide bytes.now }
{
    begins(bytes, b"\xff\xfe") || begins(bytes, b"\xfe\xff")
}

// Whether the last byte of the count of facets is 0, so that there are fewer than 2^24.
#[tactic(auto, unfolding(crate::specs::Formats::is_binary_stl))]
fn is_binary_stl(bytes: &[u8]) -> bool
    ensures { result ≡ is_binary_stl bytes.now }
{
    bytes.len() > FIRST_BYTES - 1 && bytes[FIRST_BYTES - 1] == 0
}

fn is_solid(word: &[u8]) -> bool
    ensures { result ≡ is_solid word.now }
{
    word.eq_ignore_ascii_case(b"solid")
}

// Whether the first five bytes are `solid` in letters of either case.
fn begins_solid(bytes: &[u8]) -> bool
    ensures { result ≡ begins_solid bytes.now }
{
    match bytes {
        [a, b, c, d, e, ..] => is_solid(&[*a, *b, *c, *d, *e]),
        _ => false,
    }
}

// What a file of meshes and scenes is that isn't read.
#[tactic(auto, unfolding(crate::specs::Formats::scene_of))]
fn scene_of(bytes: &[u8]) -> Option<Foreign>
    ensures { result ≡ scene_of bytes.now }
{
    if begins(bytes, b"glTF") {
        Some(Foreign::Gltf)
    } else if begins(bytes, b"OFF") {
        Some(Foreign::Off)
    } else if begins(bytes, b"Kaydara") {
        Some(Foreign::Fbx)
    } else if begins(bytes, b"PK\x03\x04") {
        Some(Foreign::Zip)
    } else if begins(bytes, b"\x1f\x8b") {
        Some(Foreign::Gzip)
    } else if begins(bytes, b"%PDF") {
        Some(Foreign::Pdf)
    } else {
        None
    }
}

// What a picture is. A TIFF file may begin as a 3D Studio file does.
#[tactic(auto, unfolding(crate::specs::Formats::picture_of))]
fn picture_of(bytes: &[u8]) -> Option<Foreign>
    ensures { result ≡ picture_of bytes.now }
{
    if begins(bytes, b"\x89PNG") {
        Some(Foreign::Png)
    } else if begins(bytes, b"\xff\xd8\xff") {
        Some(Foreign::Jpeg)
    } else if begins(bytes, b"GIF8") {
        Some(Foreign::Gif)
    } else if begins(bytes, b"II*\0") || begins(bytes, b"MM\0*") {
        Some(Foreign::Tiff)
    } else if begins(bytes, b"MM") {
        Some(Foreign::ThreeDs)
    } else {
        None
    }
}

#[tactic(auto, unfolding(crate::specs::Formats::foreign_of))]
fn foreign_of(bytes: &[u8]) -> Option<Foreign>
    ensures { result ≡ foreign_of bytes.now }
{
    match scene_of(bytes) {
        Some(kind) => Some(kind),
        None => picture_of(bytes),
    }
}

// How many bytes at the front are white space.
fn white_len(bytes: &[u8]) -> usize
    ensures value { result ≡ prefix_len is_ascii_whitespace bytes.now }
    ensures within { result ≤ length bytes.now }
{
    bytes.iter().take_while(|b| b.is_ascii_whitespace()).count()
}

fn after_white(bytes: &[u8]) -> &[u8]
    ensures { result.now ≡ after_white bytes.now }
{
    &bytes[white_len(bytes)..]
}

// Whether an object of JSON begins that has a name in it. No line of an OBJ text is like that.
#[tactic(auto, unfolding(crate::specs::Formats::is_json))]
fn is_json(bytes: &[u8]) -> bool
    ensures { result ≡ is_json bytes.now }
{
    match after_white(bytes) {
        [b'{', rest @ ..] => begins(after_white(rest), b"\""),
        _ => false,
    }
}

// The format of a file that has no name at its front.
#[tactic(auto, unfolding(crate::specs::Formats::text_by))]
fn text_by(bytes: &[u8]) -> Format
    ensures { result ≡ text_by bytes.now }
{
    if begins_solid(bytes) || is_binary_stl(bytes) {
        Format::Stl
    } else if is_json(bytes) {
        Format::Foreign(Foreign::Json)
    } else {
        Format::Obj
    }
}

/// The format of a file that begins with these bytes, which are `FIRST_BYTES`, or all that it has.
#[tactic(auto, unfolding(crate::specs::Formats::format_by))]
pub fn format_by(bytes: &[u8]) -> Format
    ensures { result ≡ format_by bytes.now }
{
    if begins(bytes, b"#") || is_wide(bytes) {
        return Format::Obj;
    }
    if is_ply(bytes) {
        return Format::Ply;
    }
    if let Some(kind) = foreign_of(bytes) {
        return Format::Foreign(kind);
    }
    text_by(bytes)
}

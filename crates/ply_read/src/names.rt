//! What the words of a header stand for.
ghost use Rattle.std.specs.Prelude.{◌≡◌, ◌||◌};
ghost use Rattle.ply_read.specs.Lines.{is_word};
ghost use Rattle.ply_read.specs.Names.{encoding_of, type_of, role_of, kind_of, is_normal};
ghost use Rattle.ply_read.specs.Names.{is_colour, is_texture};

use crate::declared::{Encoding, Kind, Order, Role, ScalarType};
use crate::lines::is_word;

fn is_either(first: &[u8], second: &[u8], word: &[u8]) -> bool
    ensures { result ≡ (is_word first.now word.now || is_word second.now word.now) }
{
    is_word(first, word) || is_word(second, word)
}

#[tactic(auto, unfolding(crate::specs::Names::encoding_of))]
pub(crate) fn encoding_of(word: &[u8]) -> Option<Encoding>
    ensures { result ≡ encoding_of word.now }
{
    if is_word(b"ascii", word) {
        Some(Encoding::Ascii)
    } else if is_word(b"binary_little_endian", word) {
        Some(Encoding::Binary(Order::Little))
    } else if is_word(b"binary_big_endian", word) {
        Some(Encoding::Binary(Order::Big))
    } else {
        None
    }
}

#[tactic(auto, unfolding(crate::specs::Names::type_of))]
pub(crate) fn type_of(word: &[u8]) -> Option<ScalarType>
    ensures { result ≡ type_of word.now }
{
    if is_either(b"char", b"int8", word) {
        Some(ScalarType::Int8)
    } else if is_either(b"uchar", b"uint8", word) {
        Some(ScalarType::Uint8)
    } else if is_either(b"short", b"int16", word) {
        Some(ScalarType::Int16)
    } else if is_either(b"ushort", b"uint16", word) {
        Some(ScalarType::Uint16)
    } else if is_either(b"int", b"int32", word) {
        Some(ScalarType::Int32)
    } else if is_either(b"uint", b"uint32", word) {
        Some(ScalarType::Uint32)
    } else if is_either(b"float", b"float32", word) {
        Some(ScalarType::Float32)
    } else if is_either(b"double", b"float64", word) {
        Some(ScalarType::Float64)
    } else {
        None
    }
}

#[tactic(auto, unfolding(crate::specs::Names::is_normal))]
fn is_normal(word: &[u8]) -> bool
    ensures { result ≡ is_normal word.now }
{
    is_word(b"nx", word) || is_word(b"ny", word) || is_word(b"nz", word)
}

#[tactic(auto, unfolding(crate::specs::Names::is_colour))]
fn is_colour(word: &[u8]) -> bool
    ensures { result ≡ is_colour word.now }
{
    is_word(b"red", word)
        || is_word(b"green", word)
        || is_word(b"blue", word)
        || is_word(b"alpha", word)
        || is_word(b"r", word)
        || is_word(b"g", word)
        || is_word(b"b", word)
        || is_word(b"a", word)
        || is_word(b"diffuse_red", word)
        || is_word(b"diffuse_green", word)
        || is_word(b"diffuse_blue", word)
}

#[tactic(auto, unfolding(crate::specs::Names::is_texture))]
fn is_texture(word: &[u8]) -> bool
    ensures { result ≡ is_texture word.now }
{
    is_word(b"s", word)
        || is_word(b"t", word)
        || is_word(b"u", word)
        || is_word(b"v", word)
        || is_word(b"texture_u", word)
        || is_word(b"texture_v", word)
        || is_word(b"texcoord", word)
        || is_word(b"texnumber", word)
}

#[tactic(auto, unfolding(crate::specs::Names::role_of))]
pub(crate) fn role_of(word: &[u8]) -> Role
    ensures { result ≡ role_of word.now }
{
    if is_word(b"x", word) {
        Role::X
    } else if is_word(b"y", word) {
        Role::Y
    } else if is_word(b"z", word) {
        Role::Z
    } else if is_either(b"vertex_indices", b"vertex_index", word) {
        Role::Corners
    } else if is_normal(word) {
        Role::Normal
    } else if is_colour(word) {
        Role::Colour
    } else if is_texture(word) {
        Role::Texture
    } else {
        Role::Other
    }
}

#[tactic(auto, unfolding(crate::specs::Names::kind_of))]
pub(crate) fn kind_of(word: &[u8]) -> Kind
    ensures { result ≡ kind_of word.now }
{
    if is_word(b"vertex", word) {
        Kind::Vertex
    } else if is_word(b"face", word) {
        Kind::Face
    } else {
        Kind::Other
    }
}

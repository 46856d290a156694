//! Writes the stream text of a hierarchy, in pages.
ghost use Rattle.std.specs.Prelude.{◌≡◌, ◌≤◌, ◌<◌, ◌^◌, length, Some};
ghost use Rattle.std.specs.List.{flat_map};
ghost use Rattle.pm_io.specs.Puts.{Puts, PutsThrough};
ghost use Rattle.pm_forest.specs.Rules.{word_of};
ghost use Rattle.pm_format.specs.Words.{spelled, AreWords};
ghost use Rattle.pm_format.specs.Stream.{header_words, root_words, base_words, head_words};
ghost use Rattle.pm_format.specs.Stream.{new_face_words, record_words, stream};

use crate::units::{MAGIC, WHOLE, WITH_DIGITS};
use byteorder::{ByteOrder, LittleEndian};
use pm_base::Side;
use pm_forest::{Face, Hierarchy, NewFace, Record, Root};
use pm_io::{Page, Sink, WriteFault};

// Adds a unit's words to the page.
#[tactic(auto, unfolding(crate::specs::Words::spelled))]
fn put_words<K: Sink>(words: &[u32], page: &mut Page, out: &mut K) -> Result<(), WriteFault>
    requires { length words.now ≤ 11 }
    ensures { PutsThrough K.Sink out.old out.new page.old page.new (spelled words.now) result }
{
    let mut bytes = [0; 44];
    let unit = &mut bytes[..4 * words.len()];
    LittleEndian::write_u32_into(words, unit);
    page.add(unit, out)
}

// The word that names a neighbour: 0 for none.
fn word_of(side: Option<Side>) -> u32
    requires { word_of side < 2 ^ 32 }
    ensures { result ≡ word_of side }
{
    match side {
        None => 0,
        Some(e) => e.0 + 1,
    }
}

fn whole_header(h: &Hierarchy) -> [u32; 6]
    ensures { result ≡ header_words 0 h.now }
{
    [
        u32::from_le_bytes(MAGIC),
        WHOLE,
        h.leaves(),
        h.roots(),
        h.bases(),
        h.records(),
    ]
}

fn header_with_digits(h: &Hierarchy, digits: u32) -> [u32; 7]
    requires { 0 < digits }
    ensures { result ≡ header_words digits h.now }
{
    [
        u32::from_le_bytes(MAGIC),
        WITH_DIGITS,
        digits,
        h.leaves(),
        h.roots(),
        h.bases(),
        h.records(),
    ]
}

fn root_words(root: &Root) -> [u32; 5]
    ensures { result ≡ root_words root.now }
{
    let place = &root.place;
    [
        place.x().cast_unsigned(),
        place.y().cast_unsigned(),
        place.z().cast_unsigned(),
        root.width,
        root.input,
    ]
}

fn base_words(face: &Face) -> [u32; 4]
    ensures { result ≡ base_words face.now }
{
    [face.a, face.b, face.c, face.input]
}

fn head_words(split: &Record) -> [u32; 11]
    ensures { result ≡ head_words split.now }
{
    let (t, u) = (&split.t.place, &split.u.place);
    let presence = u32::from(split.left.is_some()) + 2 * u32::from(split.right.is_some());
    [
        split.s,
        split.width,
        t.x().cast_unsigned(),
        t.y().cast_unsigned(),
        t.z().cast_unsigned(),
        split.t.input,
        u.x().cast_unsigned(),
        u.y().cast_unsigned(),
        u.z().cast_unsigned(),
        split.u.input,
        presence,
    ]
}

fn new_face_words(new: &NewFace) -> [u32; 6]
    requires first { word_of new.now.first < 2 ^ 32 }
    requires second { word_of new.now.second < 2 ^ 32 }
    ensures { result ≡ new_face_words (Some new.now) }
{
    let face = &new.face;
    [
        face.a,
        face.b,
        face.c,
        face.input,
        word_of(new.first),
        word_of(new.second),
    ]
}

fn put_header<K: Sink>(
    h: &Hierarchy,
    digits: u32,
    page: &mut Page,
    out: &mut K,
) -> Result<(), WriteFault>
    ensures { let text = spelled (header_words digits h.now) in
        PutsThrough K.Sink out.old out.new page.old page.new text result }
{
    if digits == 0 {
        put_words(&whole_header(h), page, out)
    } else {
        put_words(&header_with_digits(h, digits), page, out)
    }
}

// Puts a new face where there is one.
fn put_new_face<K: Sink>(
    new: Option<NewFace>,
    page: &mut Page,
    out: &mut K,
) -> Result<(), WriteFault>
    requires { AreWords (new_face_words new) }
    ensures { PutsThrough K.Sink out.old out.new page.old page.new (spelled (new_face_words new))
        result }
{
    match new {
        None => Ok(()),
        Some(face) => put_words(&new_face_words(&face), page, out),
    }
}

fn put_head<K: Sink>(split: &Record, page: &mut Page, out: &mut K) -> Result<(), WriteFault>
    ensures { PutsThrough K.Sink out.old out.new page.old page.new (spelled (head_words split.now))
        result }
{
    put_words(&head_words(split), page, out)
}

fn put_record<K: Sink>(split: &Record, page: &mut Page, out: &mut K) -> Result<(), WriteFault>
    requires left { AreWords (new_face_words split.now.left) }
    requires right { AreWords (new_face_words split.now.right) }
    ensures { PutsThrough K.Sink out.old out.new page.old page.new
        (spelled (record_words split.now)) result }
{
    put_head(split, page, out)?;
    put_new_face(split.left, page, out)?;
    put_new_face(split.right, page, out)
}

fn put_roots<K: Sink>(h: &Hierarchy, page: &mut Page, out: &mut K) -> Result<(), WriteFault>
    ensures { let text = flat_map (λ r. spelled (root_words r)) h.now.roots in
        PutsThrough K.Sink out.old out.new page.old page.new text result }
{
    for i in 0..h.roots() {
        put_words(&root_words(&h.root_at(i)), page, out)?;
    }
    Ok(())
}

fn put_bases<K: Sink>(h: &Hierarchy, page: &mut Page, out: &mut K) -> Result<(), WriteFault>
    ensures { let text = flat_map (λ f. spelled (base_words f)) h.now.bases in
        PutsThrough K.Sink out.old out.new page.old page.new text result }
{
    for i in 0..h.bases() {
        put_words(&base_words(&h.base_at(i)), page, out)?;
    }
    Ok(())
}

fn put_records<K: Sink>(h: &Hierarchy, page: &mut Page, out: &mut K) -> Result<(), WriteFault>
    ensures { let text = flat_map (λ r. spelled (record_words r)) h.now.records in
        PutsThrough K.Sink out.old out.new page.old page.new text result }
{
    h.invariant();
    for k in 0..h.records() {
        put_record(h.record_at(k), page, out)?;
    }
    Ok(())
}

// Puts the whole text; its last bytes stay in the page.
fn put_text<K: Sink>(
    h: &Hierarchy,
    digits: u32,
    page: &mut Page,
    out: &mut K,
) -> Result<(), WriteFault>
    requires { digits ≤ 4 }
    ensures { PutsThrough K.Sink out.old out.new page.old page.new (stream digits h.now) result }
{
    put_header(h, digits, page, out)?;
    put_roots(h, page, out)?;
    put_bases(h, page, out)?;
    put_records(h, page, out)
}

/// Writes the stream text of a hierarchy whose coordinates have so many decimals, at most four.
/// After a fault the sink has gained a part of the text from its front, and not the whole. It takes
/// no memory, and time linear in the text. The text is put in pages of 32,768 bytes, of which the
/// last may be shorter.
pub fn encode<K: Sink>(h: &Hierarchy, digits: u32, out: &mut K) -> Result<(), WriteFault>
    requires { digits ≤ 4 }
    ensures { Puts K.Sink out.old out.new (stream digits h.now) result }
{
    let mut page = Page::new();
    put_text(h, digits, &mut page, out)?;
    page.flush(out)?;
    Ok(())
}

//! The lines of nodes and faces.
ghost use Rattle.std.specs.Prelude.{◌≡◌, ◌*◌, ◌++◌, OnOk, length};
ghost use Rattle.pm_forest.specs.Faces.{face_count};
ghost use Rattle.paint.specs.Texts.{colour_text, texture_text, page_text, lines_below};
ghost use Rattle.paint.specs.Texts.{mean_line, fit_line, page_line};

use crate::OutOfMemory;
use pm_base::FaceId;
use pm_forest::Hierarchy;
use pm_io::Line;

// The colour of a node.
#[tactic(auto, unfolding(crate::specs::Texts::colour_text))]
fn put_colour(line: &mut Line, node: u32, red: u16, green: u16, blue: u16)
    ensures { line.new ≡ colour_text node red green blue }
{
    line.clear();
    line.add(b"c ");
    line.add_number(node);
    line.add(b" ");
    line.add_number(u32::from(red));
    line.add(b" ");
    line.add_number(u32::from(green));
    line.add(b" ");
    line.add_number(u32::from(blue));
    line.add(b"\n");
}

// The texture coordinates of a node.
#[tactic(auto, unfolding(crate::specs::Texts::texture_text))]
fn put_coordinates(line: &mut Line, node: u32, u: i32, v: i32)
    ensures { line.new ≡ texture_text node u v }
{
    line.clear();
    line.add(b"t ");
    line.add_number(node);
    line.add(b" ");
    line.add_signed(u);
    line.add(b" ");
    line.add_signed(v);
    line.add(b"\n");
}

// The page of a face.
#[tactic(auto, unfolding(crate::specs::Texts::page_text))]
fn put_page(line: &mut Line, face: u32, page: u8)
    ensures { line.new ≡ page_text face page }
{
    line.clear();
    line.add(b"p ");
    line.add_number(face);
    line.add(b" ");
    line.add_number(u32::from(page));
    line.add(b"\n");
}

/// Adds the lines of so many nodes, by their means in three channels.
pub(crate) fn add_means(text: &mut Vec<u8>, nodes: u32, means: &[u16]) -> Result<(), OutOfMemory>
    requires { length means.now ≡ nodes * 3 }
    ensures { OnOk result
        (text.new.items ≡ text.old.items ++ lines_below (mean_line means.now) nodes) }
{
    let mut line = Line::new();
    for node in 0..nodes {
        let at = node as usize * 3;
        put_colour(&mut line, node, means[at], means[at + 1], means[at + 2]);
        text.extend_from_slice(line.as_slice())?;
    }
    Ok(())
}

/// Adds the lines of so many nodes, by their fits in two channels.
pub(crate) fn add_fits(text: &mut Vec<u8>, nodes: u32, fits: &[i32]) -> Result<(), OutOfMemory>
    requires { length fits.now ≡ nodes * 2 }
    ensures { OnOk result
        (text.new.items ≡ text.old.items ++ lines_below (fit_line fits.now) nodes) }
{
    let mut line = Line::new();
    for node in 0..nodes {
        let at = node as usize * 2;
        put_coordinates(&mut line, node, fits[at], fits[at + 1]);
        text.extend_from_slice(line.as_slice())?;
    }
    Ok(())
}

/// Adds the lines of all faces, by the pages of the input's.
#[tactic(auto, using(pm_forest::proofs::FaceInputs::some_face_input, pm_forest::proofs::FaceInputs::face_input_most))]
pub(crate) fn add_pages(text: &mut Vec<u8>, h: &Hierarchy, pages: &[u8]) -> Result<(), OutOfMemory>
    requires { length pages.now ≡ face_count h.now }
    ensures { OnOk result (text.new.items
        ≡ text.old.items ++ lines_below (page_line h.now pages.now) (face_count h.now)) }
{
    h.invariant();
    let mut line = Line::new();
    for face in 0..h.faces() {
        let input = h.face_at(FaceId(face)).input;
        put_page(&mut line, face, pages[input as usize - 1]);
        text.extend_from_slice(line.as_slice())?;
    }
    Ok(())
}

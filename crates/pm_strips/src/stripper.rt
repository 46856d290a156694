//! Writes the strips of a front.
ghost use Rattle.std.specs.Prelude.{◌≡◌, length, IfOk};
ghost use Rattle.std.specs.List.{flat_map};
ghost use Rattle.pm_io.specs.Puts.{Puts, PutsThrough};
ghost use Rattle.pm_base.specs.Counts.{set_of};
ghost use Rattle.pm_forest.specs.Faces.{face_count};
ghost use Rattle.pm_strips.specs.Shown.{is_there, strip_lists_of, strip_line, count_line};
ghost use Rattle.pm_strips.specs.Shown.{strips_text, ShowTheMesh};

use crate::OutOfMemory;
use crate::line::put_count;
use crate::strip::put_strip;
use pm_base::FaceId;
use pm_forest::Hierarchy;
use pm_front::Front;
use pm_io::{Line, Page, Sink, WriteFault};
use std::alloc::Global;
use std::marker::Model;

/// Writes the fronts of one hierarchy as triangle strips. It has a flag for each face, and
/// contracts see how many.
#[derive(Drop)]
pub struct Stripper {
    free: Vec<bool>,
}

impl Model for Stripper {
    ghost use Rattle.std.specs.Prelude.{ℕ, length};

    ghost Value = { ℕ };

    ghost view = { λ s. length s.free.items };
}

impl Stripper {
    /// A stripper for the fronts of a hierarchy. All memory is taken here.
    pub fn new(alloc: Global, h: &Hierarchy) -> Result<Stripper, OutOfMemory>
        ensures { IfOk result (λ s. s ≡ face_count h.now) }
    {
        let faces = h.faces() as usize;
        Ok(Stripper {
            free: vec![in alloc; false; faces]?,
        })
    }

    /// Writes the mesh that the front shows as triangle strips, and how many there are. The front
    /// is one of the stripper's hierarchy. The lists of the strips stand for the kept faces, each
    /// once, with their corners in cyclic order. All faces are looked at twice, and at most four
    /// sides of each kept one; no memory. After a fault the sink has gained a part of the text from
    /// its front, and not the whole. A later call starts anew.
    ///
    /// The text is put in pages of 32,768 bytes, of which the last may be shorter: when the call
    /// returns, nothing is held back.
    #[tactic(auto, using(crate::proofs::ShownLaws::strips_show), unfolding(crate::specs::Shown::strips_text))]
    pub fn write_strips<K: Sink>(&mut self, front: &Front, out: &mut K) -> Result<(), WriteFault>
        requires { self.old ≡ face_count front.now.h }
        ensures puts { Puts K.Sink out.old out.new
            (strips_text front.now.h (set_of front.now.flags)) result }
        ensures same { self.new ≡ self.old }
        ensures mesh { ShowTheMesh front.now.h (set_of front.now.flags) }
    {
        front.invariant();
        let mut page = Page::new();
        free_kept(&mut self.free, front);
        let strips = put_strips(&mut self.free, front, &mut page, out)?;
        put_total(strips, &mut page, out)?;
        page.flush(out)?;
        Ok(())
    }
}

// The last line.
fn put_total<K: Sink>(strips: u32, page: &mut Page, out: &mut K) -> Result<(), WriteFault>
    ensures { PutsThrough K.Sink out.old out.new page.old page.new (count_line strips) result }
{
    let mut line = Line::new();
    put_count(&mut line, strips);
    page.add(line.as_slice(), out)
}

// The kept faces are free, and no others.
fn free_kept(free: &mut Vec<bool>, front: &Front)
    requires { length free.old.items ≡ face_count front.now.h }
    ensures free { set_of free.new.items ≡ is_there front.now.h (set_of front.now.flags) }
    ensures len { length free.new.items ≡ length free.old.items }
{
    let faces = front.hierarchy().faces();
    for face in 0..faces {
        free[face as usize] = front.is_kept(FaceId(face));
    }
}

// A line for each strip, each from the least face that is free. The answer is how many there are.
fn put_strips<K: Sink>(
    free: &mut Vec<bool>,
    front: &Front,
    page: &mut Page,
    out: &mut K,
) -> Result<u32, WriteFault>
    requires len { length free.old.items ≡ face_count front.now.h }
    requires free { set_of free.old.items ≡ is_there front.now.h (set_of front.now.flags) }
    ensures puts { let text =
        flat_map strip_line (strip_lists_of front.now.h (set_of front.now.flags)) in
        PutsThrough K.Sink out.old out.new page.old page.new text result }
    ensures count { IfOk result
        (λ n. n ≡ length (strip_lists_of front.now.h (set_of front.now.flags))) }
    ensures len { length free.new.items ≡ length free.old.items }
{
    let mut strips = 0u32;
    for face in 0..front.hierarchy().faces() {
        if free[face as usize] {
            put_strip(free, front, FaceId(face), page, out)?;
            strips += 1;
        }
    }
    Ok(strips)
}

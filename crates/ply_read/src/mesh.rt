//! What stands after a header: elements, one after the other.
ghost use Rattle.std.specs.Prelude.{◌≡◌, ◌≤◌, ◌<◌, ◌+◌, ◌-◌, ◌++◌, ℕ, List, IfOk, IfErr, OnOk, Ok};
ghost use Rattle.std.specs.Prelude.{length};
ghost use Rattle.std.specs.List.{All};
ghost use Rattle.pm_base.specs.declared.limits.TheConstants.{MOST_FACES};
ghost use Rattle.obj_scan.specs.Judged.{polygons_after};
ghost use Rattle.obj_scan.specs.Polygons.{triangles};
ghost use Rattle.ply_read.specs.Body.{at_body, with_face, with_row, with_element, with_elements};
ghost use Rattle.ply_read.specs.Body.{own, with_declared};
ghost use Rattle.ply_read.specs.Steps.{repeated};
ghost use Rattle.ply_read.specs.Told.{row_in, mesh_in, Tells};

use crate::OutOfMemory;
use crate::declared::{Declared, Element, Encoding, Kind, Property};
use crate::fault::PlyFault;
use crate::row::RowReader;
use crate::stop::{BodyFail, Stop};
use obj_prepare::ExactPoint;
use obj_scan::push_polygon;
use pm_base::{Corners, MOST_FACES};
use pm_ears::Polygon;
use std::alloc::Global;

/// What the elements so far give.
#[derive(Drop)]
pub(crate) struct MeshReader {
    pub points: Vec<ExactPoint>,
    pub faces: Vec<Corners>,
    pub polygons: Vec<Polygon>,
    pub short_faces: u32,
}

// Notes where the triangles of a face of more than three corners begin, after so many.
fn note_polygon(polygons: &mut Vec<Polygon>, faces: u32, corners: &[u32]) -> Result<(), OutOfMemory>
    requires { length corners.now ≤ MOST_FACES + 2 }
    ensures { OnOk result
        (polygons.new.items ≡ polygons_after polygons.old.items faces corners.now) }
{
    if corners.len() > 3 {
        polygons.push(Polygon {
            first: faces,
            triangles: (corners.len() - 2) as u32,
        })?;
    }
    Ok(())
}

// The properties that stand first.
#[tactic(auto, using(crate::proofs::DeclaredLaws::own_next, crate::proofs::DeclaredLaws::own_stop, crate::proofs::DeclaredLaws::own_end))]
fn own(alloc: Global, declared: &[Declared]) -> Result<Vec<Property>, OutOfMemory>
    ensures { IfOk result (λ ps. ps.items ≡ own declared.now) }
{
    let mut properties = Vec::new(alloc);
    for d in declared {
        match d {
            Declared::Property(p) => properties.push(*p)?,
            Declared::Element(_) => return Ok(properties),
        }
    }
    Ok(properties)
}

impl MeshReader {
    pub(crate) fn new(alloc: Global) -> MeshReader
        ensures { (rest : List ℕ) → mesh_in result rest ≡ at_body rest }
    {
        MeshReader {
            points: Vec::new(alloc),
            faces: Vec::new(alloc),
            polygons: Vec::new(alloc),
            short_faces: 0,
        }
    }

    // Puts down a face's triangles, and notes where they stand if it has more than three corners.
    fn push_face(&mut self, corners: &mut Vec<u32>) -> Result<(), OutOfMemory>
        requires within { All (λ (c : ℕ). c < length self.old.points.items) corners.old.items }
        requires room { length self.old.faces.items + (length corners.old.items - 2)
            ≤ MOST_FACES }
        ensures points { self.new.points ≡ self.old.points }
        ensures short { self.new.short_faces ≡ self.old.short_faces }
        ensures faces { OnOk result
            (self.new.faces.items ≡ self.old.faces.items
            ++ triangles self.old.points.items corners.old.items) }
        ensures polygons { OnOk result
            (self.new.polygons.items
            ≡ polygons_after self.old.polygons.items (length self.old.faces.items)
            corners.old.items) }
    {
        note_polygon(&mut self.polygons, self.faces.len() as u32, corners)?;
        push_polygon(&self.points, &mut self.faces, corners)
    }

    // Takes a face, after which this stands.
    #[tactic(auto, unfolding(crate::specs::Body::with_face))]
    fn take_face(&mut self, corners: &mut Vec<u32>, rest: &[u8]) -> Result<(), BodyFail>
        requires within { All (λ (c : ℕ). c < length self.old.points.items) corners.old.items }
        ensures ok { OnOk result
            ((before : List ℕ) → with_face (mesh_in self.old before) corners.old.items rest.now
            ≡ Ok (mesh_in self.new rest.now)) }
        ensures err { IfErr result
            (λ e. (before : List ℕ)
            → Tells (with_face (mesh_in self.old before) corners.old.items rest.now) e) }
    {
        if corners.len() < 3 {
            self.short_faces = self.short_faces.saturating_add(1);
            return Ok(());
        }
        if self.faces.len() + (corners.len() - 2) > MOST_FACES as usize {
            return Err(BodyFail::Stop(Stop {
                fault: PlyFault::TooManyTriangles,
                left: rest.len(),
            }));
        }
        match self.push_face(corners) {
            Ok(()) => Ok(()),
            Err(_) => Err(BodyFail::OutOfMemory),
        }
    }

    // Takes what the properties of an element say, after which this stands.
    fn put(&mut self, kind: Kind, row: &mut RowReader, rest: &[u8]) -> Result<(), BodyFail>
        requires within { All (λ (c : ℕ). c < length self.old.points.items) row.old.corners.items }
        ensures ok { OnOk result
            ((before : List ℕ) → with_row kind (mesh_in self.old before) (row_in row.old rest.now)
            ≡ Ok (mesh_in self.new rest.now)) }
        ensures err { IfErr result
            (λ e. (before : List ℕ)
            → Tells (with_row kind (mesh_in self.old before) (row_in row.old rest.now)) e) }
    {
        match kind {
            Kind::Vertex => match self.points.push(row.point) {
                Ok(()) => Ok(()),
                Err(_) => Err(BodyFail::OutOfMemory),
            },
            Kind::Face => self.take_face(&mut row.corners, rest),
            Kind::Other => Ok(()),
        }
    }

    // Takes an element that has these properties.
    #[tactic(auto, unfolding(crate::specs::Body::with_element), using(crate::proofs::StepLaws::tells_then))]
    fn take_element<'a>(
        &mut self,
        e: Encoding,
        kind: Kind,
        properties: &[Property],
        row: &mut RowReader,
        rest: &'a [u8],
    ) -> Result<&'a [u8], BodyFail>
        ensures ok { IfOk result
            (λ r. with_element e kind properties.now (mesh_in self.old rest.now)
            ≡ Ok (mesh_in self.new r.now)) }
        ensures err { IfErr result
            (Tells (with_element e kind properties.now (mesh_in self.old rest.now))) }
    {
        let after = match row.take_all(e, kind, self.points.len(), properties, rest) {
            Ok(after) => after,
            Err(fail) => return Err(fail),
        };
        match self.put(kind, row, after) {
            Ok(()) => Ok(after),
            Err(fail) => Err(fail),
        }
    }

    // Takes so many elements that have these properties.
    #[tactic(auto, using(crate::proofs::StepLaws::repeated_next, crate::proofs::StepLaws::repeated_fail, crate::proofs::StepLaws::repeated_end))]
    fn take_elements<'a>(
        &mut self,
        e: Encoding,
        el: Element,
        properties: &[Property],
        row: &mut RowReader,
        rest: &'a [u8],
    ) -> Result<&'a [u8], BodyFail>
        ensures ok { IfOk result
            (λ r. with_elements e el.kind el.count properties.now (mesh_in self.old rest.now)
            ≡ Ok (mesh_in self.new r.now)) }
        ensures err { IfErr result
            (Tells (with_elements e el.kind el.count properties.now
            (mesh_in self.old rest.now))) }
    {
        if properties.is_empty() {
            return Ok(rest);
        }
        let mut after = rest;
        for _i in 0..el.count {
            match self.take_element(e, el.kind, properties, row, after) {
                Ok(more) => after = more,
                Err(fail) => return Err(fail),
            }
        }
        Ok(after)
    }

    /// Takes all that is declared, and answers what stands after it.
    #[tactic(auto, using(crate::proofs::DeclaredLaws::declared_skip, crate::proofs::DeclaredLaws::declared_next, crate::proofs::DeclaredLaws::declared_fail, crate::proofs::DeclaredLaws::declared_end))]
    pub(crate) fn take_declared<'a>(
        &mut self,
        alloc: Global,
        e: Encoding,
        declared: &[Declared],
        rest: &'a [u8],
    ) -> Result<&'a [u8], BodyFail>
        ensures ok { IfOk result
            (λ r. with_declared e declared.now (mesh_in self.old rest.now)
            ≡ Ok (mesh_in self.new r.now)) }
        ensures err { IfErr result
            (Tells (with_declared e declared.now (mesh_in self.old rest.now))) }
    {
        let mut row = RowReader::new(alloc);
        let mut after = rest;
        for (i, d) in declared.iter().enumerate() {
            if let Declared::Element(el) = d {
                let Ok(properties) = own(alloc, &declared[i + 1..]) else {
                    return Err(BodyFail::OutOfMemory);
                };
                match self.take_elements(e, *el, &properties, &mut row, after) {
                    Ok(more) => after = more,
                    Err(fail) => return Err(fail),
                }
            }
        }
        Ok(after)
    }
}

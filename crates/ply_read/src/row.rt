//! An element's properties, one after the other.
ghost use Rattle.std.specs.Prelude.{◌≡◌, ◌≤◌, ◌<◌, ◌^◌, ℕ, IfOk, IfErr, OnOk, Ok, Err, length};
ghost use Rattle.std.specs.Prelude.{unsigned_abs, []};
ghost use Rattle.std.specs.List.{All};
ghost use Rattle.pm_base.specs.Place.{origin};
ghost use Rattle.ply_read.specs.Body.{empty_row, passed, vertex_property, with_corner, with_list};
ghost use Rattle.ply_read.specs.Body.{face_property, with_property};
ghost use Rattle.ply_read.specs.Steps.{repeated, folded};
ghost use Rattle.ply_read.specs.Told.{row_in, Tells};

use crate::declared::{Encoding, Kind, Property, Role, ScalarType};
use crate::items::{after_value, coordinate, count, vertex};
use crate::stop::{BodyFail, Stop};
use obj_prepare::ExactPoint;
use std::alloc::Global;

/// What the properties of an element say. The corners are those of the last face: their room is
/// used again.
#[derive(Drop)]
pub(crate) struct RowReader {
    pub point: ExactPoint,
    pub corners: Vec<u32>,
}

fn origin_point() -> ExactPoint
    ensures { result ≡ origin }
{
    ExactPoint::new(0, 0, 0).unwrap()
}

// A point whose coordinates are in range.
fn point_of(x: i128, y: i128, z: i128) -> ExactPoint
    requires x { unsigned_abs x ≤ 10 ^ 32 }
    requires y { unsigned_abs y ≤ 10 ^ 32 }
    requires z { unsigned_abs z ≤ 10 ^ 32 }
    ensures { result ≡ record { x = x; y = y; z = z } }
{
    ExactPoint::new(x, y, z).unwrap()
}

impl RowReader {
    pub(crate) fn new(alloc: Global) -> RowReader {
        RowReader {
            point: origin_point(),
            corners: Vec::new(alloc),
        }
    }

    /// Begins another element.
    fn begin(&mut self)
        ensures point { self.new.point ≡ origin }
        ensures corners { self.new.corners.items ≡ [] }
    {
        self.point = origin_point();
        self.corners.clear();
    }

    // Takes a property of a vertex.
    #[tactic(auto, unfolding(crate::specs::Body::vertex_property))]
    fn take_of_vertex<'a>(
        &mut self,
        e: Encoding,
        p: Property,
        rest: &'a [u8],
    ) -> Result<&'a [u8], Stop>
        ensures ok { IfOk result
            (λ r. vertex_property e p.role p (row_in self.old rest.now)
            ≡ Ok (row_in self.new r.now)) }
        ensures corners { OnOk result (self.new.corners.items ≡ self.old.corners.items) }
        ensures err { IfErr result
            (λ s. vertex_property e p.role p (row_in self.old rest.now) ≡ Err s) }
    {
        match p.role {
            Role::X => {
                let (x, after) = coordinate(e, p.item, rest)?;
                self.point = point_of(x, self.point.y(), self.point.z());
                Ok(after)
            }
            Role::Y => {
                let (y, after) = coordinate(e, p.item, rest)?;
                self.point = point_of(self.point.x(), y, self.point.z());
                Ok(after)
            }
            Role::Z => {
                let (z, after) = coordinate(e, p.item, rest)?;
                self.point = point_of(self.point.x(), self.point.y(), z);
                Ok(after)
            }
            _ => after_value(e, p.length, p.item, rest),
        }
    }

    // Takes a corner of a face among so many vertices.
    #[tactic(auto, unfolding(crate::specs::Body::with_corner))]
    fn take_corner<'a>(
        &mut self,
        e: Encoding,
        vertices: usize,
        t: ScalarType,
        rest: &'a [u8],
    ) -> Result<&'a [u8], BodyFail>
        requires within { All (λ (c : ℕ). c < vertices) self.old.corners.items }
        ensures ok { IfOk result
            (λ r. with_corner e vertices t (row_in self.old rest.now)
            ≡ Ok (row_in self.new r.now)) }
        ensures within { OnOk result (All (λ (c : ℕ). c < vertices) self.new.corners.items) }
        ensures err { IfErr result
            (Tells (with_corner e vertices t (row_in self.old rest.now))) }
    {
        let (v, after) = match vertex(e, vertices, t, rest) {
            Ok(taken) => taken,
            Err(stop) => return Err(BodyFail::Stop(stop)),
        };
        match self.corners.push(v) {
            Ok(()) => Ok(after),
            Err(_) => Err(BodyFail::OutOfMemory),
        }
    }

    // Takes so many corners.
    #[tactic(auto, using(crate::proofs::StepLaws::repeated_next, crate::proofs::StepLaws::repeated_fail, crate::proofs::StepLaws::repeated_end))]
    fn take_corners<'a>(
        &mut self,
        e: Encoding,
        vertices: usize,
        t: ScalarType,
        n: u32,
        rest: &'a [u8],
    ) -> Result<&'a [u8], BodyFail>
        requires within { All (λ (c : ℕ). c < vertices) self.old.corners.items }
        ensures ok { IfOk result
            (λ r. repeated (with_corner e vertices t) n (row_in self.old rest.now)
            ≡ Ok (row_in self.new r.now)) }
        ensures within { OnOk result (All (λ (c : ℕ). c < vertices) self.new.corners.items) }
        ensures err { IfErr result
            (Tells (repeated (with_corner e vertices t) n (row_in self.old rest.now))) }
    {
        let mut after = rest;
        for _i in 0..n {
            match self.take_corner(e, vertices, t, after) {
                Ok(more) => after = more,
                Err(fail) => return Err(fail),
            }
        }
        Ok(after)
    }

    // Takes the corners of a face, which are a list.
    #[tactic(auto, unfolding(crate::specs::Body::with_list))]
    fn take_list<'a>(
        &mut self,
        e: Encoding,
        vertices: usize,
        c: ScalarType,
        t: ScalarType,
        rest: &'a [u8],
    ) -> Result<&'a [u8], BodyFail>
        requires within { All (λ (c : ℕ). c < vertices) self.old.corners.items }
        ensures ok { IfOk result
            (λ r. with_list e vertices c t (row_in self.old rest.now)
            ≡ Ok (row_in self.new r.now)) }
        ensures within { OnOk result (All (λ (c : ℕ). c < vertices) self.new.corners.items) }
        ensures err { IfErr result (Tells (with_list e vertices c t (row_in self.old rest.now))) }
    {
        match count(e, c, rest) {
            Ok((n, after)) => self.take_corners(e, vertices, t, n, after),
            Err(stop) => Err(BodyFail::Stop(stop)),
        }
    }

    // Takes a property that is passed over.
    fn pass<'a>(&mut self, e: Encoding, p: Property, rest: &'a [u8]) -> Result<&'a [u8], BodyFail>
        ensures ok { IfOk result
            (λ r. passed e p (row_in self.old rest.now) ≡ Ok (row_in self.new r.now)) }
        ensures corners { self.new.corners.items ≡ self.old.corners.items }
        ensures err { IfErr result (Tells (passed e p (row_in self.old rest.now))) }
    {
        match after_value(e, p.length, p.item, rest) {
            Ok(after) => Ok(after),
            Err(stop) => Err(BodyFail::Stop(stop)),
        }
    }

    // Takes a property of an element of a kind.
    fn take<'a>(
        &mut self,
        e: Encoding,
        kind: Kind,
        vertices: usize,
        p: Property,
        rest: &'a [u8],
    ) -> Result<&'a [u8], BodyFail>
        requires within { All (λ (c : ℕ). c < vertices) self.old.corners.items }
        ensures ok { IfOk result
            (λ r. with_property e kind vertices p (row_in self.old rest.now)
            ≡ Ok (row_in self.new r.now)) }
        ensures within { OnOk result (All (λ (c : ℕ). c < vertices) self.new.corners.items) }
        ensures err { IfErr result
            (Tells (with_property e kind vertices p (row_in self.old rest.now))) }
    {
        match kind {
            Kind::Vertex => match self.take_of_vertex(e, p, rest) {
                Ok(after) => Ok(after),
                Err(stop) => Err(BodyFail::Stop(stop)),
            },
            Kind::Face => match (p.role, p.length) {
                (Role::Corners, Some(c)) => self.take_list(e, vertices, c, p.item, rest),
                _ => self.pass(e, p, rest),
            },
            Kind::Other => self.pass(e, p, rest),
        }
    }

    /// Takes the properties of an element of a kind, of which those before gave so many vertices.
    #[tactic(auto, using(crate::proofs::StepLaws::folded_next, crate::proofs::StepLaws::folded_fail, crate::proofs::StepLaws::folded_end))]
    pub(crate) fn take_all<'a>(
        &mut self,
        e: Encoding,
        kind: Kind,
        vertices: usize,
        properties: &[Property],
        rest: &'a [u8],
    ) -> Result<&'a [u8], BodyFail>
        ensures ok { IfOk result
            (λ r. folded (with_property e kind vertices) properties.now (empty_row rest.now)
            ≡ Ok (row_in self.new r.now)) }
        ensures within { OnOk result (All (λ (c : ℕ). c < vertices) self.new.corners.items) }
        ensures err { IfErr result
            (Tells (folded (with_property e kind vertices) properties.now
            (empty_row rest.now))) }
    {
        self.begin();
        let mut after = rest;
        for p in properties {
            match self.take(e, kind, vertices, *p, after) {
                Ok(more) => after = more,
                Err(fail) => return Err(fail),
            }
        }
        Ok(after)
    }
}

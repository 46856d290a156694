//! The fields of a line after its keyword.
ghost use Rattle.std.specs.Prelude.{ℕ, ◌∷◌, ◌≡◌, ◌+◌, ◌-◌, ◌*◌, ◌^◌, ◌<◌, ◌≤◌, nat_le};
ghost use Rattle.std.specs.Prelude.{length, unsigned_abs, Ok, Err, OnOk, IfOk, IfErr, IfSome};
ghost use Rattle.std.specs.Prelude.{Some, None, if◌then◌else◌};
ghost use Rattle.obj_scan.specs.declared.passed.Kind.TheVariants as kinds;
ghost use Rattle.std.specs.List.{All};
ghost use Rattle.obj_read.specs.declared.fault.ObjFault.TheVariants as faults;
ghost use Rattle.obj_read.specs.declared.fault.ObjFail.TheVariants as fails;
ghost use Rattle.obj_read.specs.Coordinates.{with_sign};
ghost use Rattle.obj_read.specs.Fails.{IsLineFault};
ghost use Rattle.obj_read.specs.Fields.{fields};
ghost use Rattle.obj_prepare.specs.Numbers.{decimal_coordinate as decimal_coordinate_of};
ghost use Rattle.obj_prepare.specs.Numbers.{is_exact_field};
ghost use Rattle.obj_scan.specs.Digits.{IsOfDigits};
ghost use Rattle.obj_scan.specs.Judged.{Found, scanned_vertex_line, indices, polygon_line};
ghost use Rattle.obj_scan.specs.Judged.{is_weight, after_place};

use crate::passed::Kind;
use obj_prepare::{Coordinate, ExactPoint, decimal_coordinate, exact_coordinate};
use obj_read::{ObjFail, ObjFault, index, is_negative, next_field, without_sign};
use pm_base::{MOST_FACES, MOST_VERTICES};
use pm_io::{are_digits, value_up_to};

// The number 1 in units.
const ONE: i128 = 1_000_000_000_000_000_000;

// Whole numbers below it are read by their digits alone.
const SMALL: u64 = 100_000_000_000_000;

/// A point, whether it is exactly what its fields spell, and what is passed over that stands after
/// it.
#[derive(Clone, Copy, Debug, PartialEq, Eq)]
pub struct Vertex {
    pub point: ExactPoint,
    pub exact: bool,
    pub passed: Option<Kind>,
}

// Whether a field is a number that isn't 1.
fn is_weight(field: &[u8]) -> bool
    ensures { result ≡ is_weight (decimal_coordinate_of field.now) }
{
    match decimal_coordinate(field) {
        Ok(weight) => weight != ONE,
        Err(fault) => fault == ObjFault::OutOfRange,
    }
}

// What one field is that stands alone after a place.
fn weight(field: &[u8]) -> Option<Kind>
    ensures { result ≡ if is_weight (decimal_coordinate_of field.now) then Some kinds.Weight
        else None }
{
    if is_weight(field) {
        Some(Kind::Weight)
    } else {
        None
    }
}

// What is passed over after a place: one field that is a weight, or three or more.
#[tactic(auto, unfolding(crate::specs::Judged::after_place))]
fn after_place(text: &[u8]) -> Option<Kind>
    ensures { result ≡ after_place (fields text.now) }
{
    let (first, rest) = next_field(text)?;
    let Some((_, rest)) = next_field(rest) else {
        return weight(first);
    };
    if next_field(rest).is_some() {
        Some(Kind::Colour)
    } else {
        None
    }
}

// The number that digits alone make, where it is small.
fn few_digits(number: &[u8]) -> Option<u64>
    ensures { IfSome result (IsOfDigits number.now) }
{
    if number.is_empty() || !are_digits(number) {
        return None;
    }
    let n = value_up_to(number, SMALL);
    if n < SMALL { Some(n) } else { None }
}

// A whole number in units.
fn in_units(negative: bool, n: u64) -> i128
    requires { n < SMALL }
    ensures value { result ≡ with_sign negative (n * 10 ^ 18) }
    ensures range { unsigned_abs result ≤ 10 ^ 32 }
{
    let units = i128::from(n) * ONE;
    if negative { -units } else { units }
}

// The number that a field spells. One of a few digits alone, as most are on the grid, is read as a
// whole one.
#[tactic(auto, using(crate::proofs::NumberLaws::digits_in_units, crate::proofs::NumberLaws::digits_exact))]
fn number(field: &[u8]) -> Result<Coordinate, ObjFault>
    ensures value { IfOk result (λ c. decimal_coordinate_of field.now ≡ Ok c.units) }
    ensures exact { IfOk result (λ c. c.exact ≡ is_exact_field field.now) }
    ensures fault { IfErr result (λ e. decimal_coordinate_of field.now ≡ Err e) }
    ensures range { IfOk result (λ c. unsigned_abs c.units ≤ 10 ^ 32) }
{
    match few_digits(without_sign(field)) {
        Some(n) => Ok(Coordinate {
            units: in_units(is_negative(field), n),
            exact: true,
        }),
        None => exact_coordinate(field),
    }
}

// The vertex with these coordinates, and what stands after them. Each of the three is in range, so
// there is a point.
fn vertex_of(x: &[u8], y: &[u8], z: &[u8], rest: &[u8], vertices: u32) -> Result<Vertex, ObjFault>
    ensures ok { IfOk result
        (λ v. scanned_vertex_line vertices (x.now ∷ y.now ∷ z.now ∷ fields rest.now)
        ≡ Ok (Found.vertex v.point v.exact v.passed)) }
    ensures fault { IfErr result
        (λ e. scanned_vertex_line vertices (x.now ∷ y.now ∷ z.now ∷ fields rest.now) ≡ Err e) }
    ensures room { OnOk result (vertices < MOST_VERTICES) }
{
    let x = number(x)?;
    let y = number(y)?;
    let z = number(z)?;
    if vertices >= MOST_VERTICES {
        return Err(ObjFault::TooMany);
    }
    match ExactPoint::new(x.units, y.units, z.units) {
        Some(point) => Ok(Vertex {
            point,
            exact: x.exact && y.exact && z.exact,
            passed: after_place(rest),
        }),
        None => Err(ObjFault::OutOfRange),
    }
}

/// What a vertex spells after so many: three coordinates, and fields that make no fault.
pub fn vertex_line(vertices: u32, text: &[u8]) -> Result<Vertex, ObjFault>
    ensures ok { IfOk result (λ v. scanned_vertex_line vertices (fields text.now)
        ≡ Ok (Found.vertex v.point v.exact v.passed)) }
    ensures fault { IfErr result (λ e. scanned_vertex_line vertices (fields text.now) ≡ Err e) }
    ensures room { OnOk result (vertices < MOST_VERTICES) }
{
    let Some((x, rest)) = next_field(text) else {
        return Err(ObjFault::TooFewFields);
    };
    let Some((y, rest)) = next_field(rest) else {
        return Err(ObjFault::TooFewFields);
    };
    let Some((z, rest)) = next_field(rest) else {
        return Err(ObjFault::TooFewFields);
    };
    vertex_of(x, y, z, rest, vertices)
}

// The vertices that the fields name, one after the other.
fn read_corners(
    vertices: u32,
    text: &[u8],
    line: u32,
    corners: &mut Vec<u32>,
) -> Result<(), ObjFail>
    ensures ok { OnOk result (indices vertices (fields text.now) ≡ Ok corners.new.items) }
    ensures within { OnOk result (All (λ (c : ℕ). c < vertices) corners.new.items) }
    ensures fault { IfErr result (λ e. IsLineFault e line (indices vertices (fields text.now))) }
{
    corners.clear();
    let mut rest = text;
    while let Some((field, after)) = next_field(rest) {
        match index(vertices, field) {
            Err(fault) => return Err(ObjFail::Fault { fault, line }),
            Ok(corner) => {
                if corners.push(corner).is_err() {
                    return Err(ObjFail::OutOfMemory);
                }
            }
        }
        rest = after;
    }
    Ok(())
}

// Whether three fields stand there, or more.
fn has_three(text: &[u8]) -> bool
    ensures { result ≡ nat_le 3 (length (fields text.now)) }
{
    let Some((_, rest)) = next_field(text) else {
        return false;
    };
    let Some((_, rest)) = next_field(rest) else {
        return false;
    };
    next_field(rest).is_some()
}

fn too_few(line: u32) -> ObjFail
    ensures { result ≡ fails.Fault faults.TooFewFields line }
{
    ObjFail::Fault {
        fault: ObjFault::TooFewFields,
        line,
    }
}

/// The corners that a face names after so many vertices and triangles, where there is room for its
/// triangles.
#[tactic(auto, using(crate::proofs::IndexLaws::face_of_three, crate::proofs::IndexLaws::face_of_few))]
pub fn face_line(
    vertices: u32,
    faces: u32,
    text: &[u8],
    line: u32,
    corners: &mut Vec<u32>,
) -> Result<(), ObjFail>
    ensures ok { OnOk result (polygon_line vertices faces (fields text.now)
        ≡ Ok (Found.polygon corners.new.items)) }
    ensures within { OnOk result (All (λ (c : ℕ). c < vertices) corners.new.items) }
    ensures room { OnOk result (faces + (length corners.new.items - 2) ≤ MOST_FACES) }
    ensures fault { IfErr result
        (λ e. IsLineFault e line (polygon_line vertices faces (fields text.now))) }
{
    if let Err(fail) = read_corners(vertices, text, line, corners) {
        return Err(if has_three(text) { fail } else { too_few(line) });
    }
    if corners.len() < 3 {
        return Err(too_few(line));
    }
    if faces as usize + corners.len().saturating_sub(2) > MOST_FACES as usize {
        return Err(ObjFail::Fault {
            fault: ObjFault::TooMany,
            line,
        });
    }
    Ok(())
}

//! Files worked by hand.
use crate::binary::read_binary;
use crate::fault::{Refused, StlFail, StlFault};
use crate::read::read_stl;
use crate::vertices::StlTriangles;
use std::alloc::Global;
use std::test::Fail;

const ONE: i128 = 1_000_000_000_000_000_000;

type Read = Result<StlTriangles, StlFail>;

// The bytes before the first of so many facets.
fn head(alloc: Global, facets: u8) -> Result<Vec<u8>, Fail> {
    let mut bytes = Vec::new(alloc);
    bytes.extend_from_slice(b"solid but binary")?;
    bytes.extend_from_slice(&[32; 64])?;
    bytes.extend_from_slice(&[facets, 0, 0, 0])?;
    Ok(bytes)
}

// A facet of three corners, whose coordinates are these bits, and a normal of other bits.
fn put_facet(bytes: &mut Vec<u8>, corners: &[[u32; 3]; 3]) -> Result<(), Fail> {
    bytes.extend_from_slice(&[255; 12])?;
    for corner in corners {
        for bits in corner {
            bytes.extend_from_slice(&bits.to_le_bytes())?;
        }
    }
    bytes.extend_from_slice(&[1, 2])?;
    Ok(())
}

fn first(bytes: &[u8], count: usize) -> &[u8] {
    &bytes[..count.min(bytes.len())]
}

fn is_read(read: &Read, points: &[(i128, i128, i128)], faces: &[(u32, u32, u32)]) -> bool {
    let Ok(t) = read else {
        return false;
    };
    t.points.len() == points.len()
        && t.faces.len() == faces.len()
        && t.points
            .iter()
            .zip(points)
            .all(|(p, q)| (p.x(), p.y(), p.z()) == *q)
        && t.faces
            .iter()
            .zip(faces)
            .all(|(f, g)| (f.a, f.b, f.c) == *g)
}

fn is_refused(read: &Read, fault: StlFault, place: usize) -> bool {
    match read {
        Err(StlFail::Fault(why)) => *why == Refused { fault, place },
        _ => false,
    }
}

// The bits of 1, of 0.5 and of -0.
const ONE_BITS: u32 = 0x3f80_0000;

const HALF_BITS: u32 = 0x3f00_0000;

const MINUS_ZERO: u32 = 0x8000_0000;

// Two triangles of a square, of which a corner is lifted.
fn square(alloc: Global) -> Result<Vec<u8>, Fail> {
    let mut bytes = head(alloc, 2)?;
    put_facet(&mut bytes, &[[0, 0, 0], [ONE_BITS, 0, 0], [0, ONE_BITS, 0]])?;
    put_facet(
        &mut bytes,
        &[
            [MINUS_ZERO, ONE_BITS, 0],
            [ONE_BITS, 0, MINUS_ZERO],
            [ONE_BITS, ONE_BITS, HALF_BITS],
        ],
    )?;
    Ok(bytes)
}

#[test]
fn equal_points_are_one_vertex(rt: HostRuntime) -> Result<(), Fail> {
    let bytes = square(rt.alloc())?;
    let points = [(0, 0, 0), (ONE, 0, 0), (0, ONE, 0), (ONE, ONE, ONE / 2)];
    let read = read_stl(rt.alloc(), &bytes);
    assert!(rt; is_read(&read, &points, &[(0, 1, 2), (2, 1, 3)]));
    Ok(())
}

#[test]
fn lengths_are_judged(rt: HostRuntime) -> Result<(), Fail> {
    let mut bytes = square(rt.alloc())?;
    assert!(rt;
        is_refused(
            &read_binary(rt.alloc(), first(&bytes, 83)),
            StlFault::CutOff,
            83
        )
    );
    assert!(rt;
        is_refused(
            &read_binary(rt.alloc(), first(&bytes, 183)),
            StlFault::CutOff,
            183
        )
    );
    bytes.push(0)?;
    assert!(rt; is_refused(&read_binary(rt.alloc(), &bytes), StlFault::MoreBytes, 184));
    assert!(rt; is_read(&read_binary(rt.alloc(), &head(rt.alloc(), 0)?), &[], &[]));
    Ok(())
}

#[test]
fn first_bad_coordinate_is_told(rt: HostRuntime) -> Result<(), Fail> {
    // 84 bytes, a normal of 12, a corner of 12 and a coordinate of 4 stand before it.
    for (bits, fault) in [
        (0x5700_0000, StlFault::TooLarge),
        (0x7f80_0000, StlFault::NotFinite),
        (0x7fc0_0000, StlFault::NotFinite),
    ] {
        let mut bytes = head(rt.alloc(), 1)?;
        put_facet(&mut bytes, &[[0, 0, 0], [0, bits, 0], [0x7f80_0000, 0, 0]])?;
        assert!(rt; is_refused(&read_stl(rt.alloc(), &bytes), fault, 112));
    }
    Ok(())
}

const TEXT: &[u8] =
    b"solid a b\n facet normal 0 0 1\r\n  outer loop\n\tvertex 0 0 0\nVERTEX 1 0 -0\n\
vertex 0 1e0 0.0\nendloop\nendfacet\n\nendsolid a\nSolid\nFacet normal x y z\nouter LOOP\n\
vertex 0 1 0\nvertex 1.000 0 0\nvertex 1 1 .5\nendloop\nendfacet\nendsolid";

#[test]
fn texts_are_read(rt: HostRuntime) -> Result<(), Fail> {
    let points = [(0, 0, 0), (ONE, 0, 0), (0, ONE, 0), (ONE, ONE, ONE / 2)];
    let read = read_stl(rt.alloc(), TEXT);
    assert!(rt; is_read(&read, &points, &[(0, 1, 2), (2, 1, 3)]));
    for (text, fault, line) in [
        (
            &b"solid\nfacet\nouter loop\nvertex 0 0 0\n"[..],
            StlFault::CutOff,
            5,
        ),
        (
            b"solid\nfacet\nouter loop\nvertex 0 0\n",
            StlFault::UnexpectedWord,
            4,
        ),
        (b"solid\n\nfacet\nouter loop x", StlFault::UnexpectedWord, 4),
        (
            b"solid\nfacet\nouter loop\nvertex 0 nan 1e99\n",
            StlFault::BadNumber,
            4,
        ),
        (
            b"solid\nfacet\nouter loop\nvertex 0 1e99 nan\n",
            StlFault::TooLarge,
            4,
        ),
        (b"solid\nvertex 0 0 0", StlFault::UnexpectedWord, 2),
    ] {
        assert!(rt; is_refused(&read_stl(rt.alloc(), text), fault, line));
    }
    Ok(())
}

//! Tests of pm_base.
use pm_base::{Side, SideMap, cross, dist_up, dist2, dot};
use pm_samples::point;
use std::alloc::Global;
use std::test::Fail;

#[test]
fn distances_are_rounded_up(rt: HostRuntime) -> Result<(), Fail> {
    let p = point((100, 0, 0))?;
    let q = point((0, 100, 0))?;
    let low = point((-32_767, -32_767, -32_767))?;
    let high = point((32_767, 32_767, 32_767))?;
    let rounded = [dist_up(p, q), dist_up(p, p), dist_up(low, high)];
    assert!(rt; dist2(p, q) == 20_000);
    assert!(rt; rounded == [142, 0, 113_509]);
    Ok(())
}

#[test]
fn normal_of_a_right_triangle(rt: HostRuntime) -> Result<(), Fail> {
    let n = cross(point((0, 0, 0))?, point((10, 0, 0))?, point((0, 10, 0))?);
    assert!(rt; [n.x, n.y, n.z] == [0, 0, 100]);
    assert!(rt; dot(n, n) == 10_000);
    Ok(())
}

// What a table of six sides gives for side 5 when it is new, for sides 5 and 0 once they are
// mapped, and for side 5 once it is mapped to none.
fn mapped(alloc: Global) -> Result<[Option<Side>; 4], Fail> {
    let mut map = SideMap::new(alloc, 6)?;
    let fresh = map.get(Side(5));
    map.set(Side(5), Some(Side(0)));
    map.set(Side(0), Some(Side(3_145_727)));
    let (fifth, first) = (map.get(Side(5)), map.get(Side(0)));
    map.set(Side(5), None);
    Ok([fresh, fifth, first, map.get(Side(5))])
}

#[test]
fn sides_are_mapped_to_sides_and_to_none(rt: HostRuntime) -> Result<(), Fail> {
    assert!(rt; SideMap::new(rt.alloc(), 6)?.len() == 6);
    assert!(rt; mapped(rt.alloc())? == [None, Some(Side(0)), Some(Side(3_145_727)), None]);
    Ok(())
}

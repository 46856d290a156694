//! The exported function that takes a view as numbers.
ghost use Rattle.std.specs.Prelude.{◌≡◌, ◌≢◌, ◌+◌, ◌*◌, ◌≤◌, ◌↔◌, ◌∷◌, true, List, length};
ghost use Rattle.std.specs.Prelude.{Some, None, IfSome, IfNone};
ghost use Rattle.std.specs.List.{list_all};
ghost use Rattle.std.specs.Option.{option_map};
ghost use Rattle.pm_view.specs.declared.plane.Plane.{Plane};
ghost use Rattle.pm_view.specs.Views.{View, is_plane};
ghost use Rattle.pm_viewer.specs.Viewing.{Viewed};
ghost use Rattle.vdpm_c.specs.Border.{IsSound, Has};
ghost use Rattle.vdpm_c.specs.Looking.{planes_told, measure_told, AskFor, Looked, moves_told};

use crate::holding::{put, take};
use crate::statuses::{DONE, NOT_SO, OUT_OF_RANGE};
use crate::tables::{Handle, Look, Moved};
use arrayvec::ArrayVec;
use pm_refine::Adapted;
use pm_view::{Measure, Plane, View};
use std::alloc::Global;

// The plane of four numbers, where 32 bits hold those of its normal.
fn plane_of(a: i64, b: i64, c: i64, d: i64) -> Option<Plane>
    ensures some { IfSome result (λ p. p ≡ record { a = a; b = b; c = c; d = d }) }
    ensures none { IfNone result (is_plane (record { a = a; b = b; c = c; d = d }) ≡ true → ⊥) }
{
    Some(Plane {
        a: i32::try_from(a).ok()?,
        b: i32::try_from(b).ok()?,
        c: i32::try_from(c).ok()?,
        d,
    })
}

// The first plane of numbers, of which there are some, and the numbers after it.
fn first_plane(numbers: &[i64]) -> Option<(Plane, &[i64])>
    requires { 1 ≤ length numbers.now }
    ensures some { IfSome result (λ r. planes_told numbers.now
        ≡ option_map (λ ps. r.0 ∷ ps) (planes_told r.1.now)) }
    ensures shorter { IfSome result (λ r. length r.1.now + 4 ≡ length numbers.now) }
    ensures none { IfNone result ((ps : List Plane) → planes_told numbers.now ≡ Some ps
        → list_all is_plane ps ≡ true → ⊥) }
{
    let [a, b, c, d, rest @ ..] = numbers else {
        return None;
    };
    let plane = plane_of(*a, *b, *c, *d)?;
    Some((plane, rest))
}

// The planes that numbers tell; none where one of them is out of range, or there are too many.
fn planes_of(numbers: &[i64]) -> Option<ArrayVec<Plane, 6>>
    ensures some { IfSome result (λ planes. planes_told numbers.now ≡ Some planes.items) }
    ensures none { IfNone result ((ps : List Plane) → planes_told numbers.now ≡ Some ps
        → list_all is_plane ps ≡ true → length ps ≤ 6 → ⊥) }
{
    let mut planes = ArrayVec::new();
    let mut rest = numbers;
    while !rest.is_empty() {
        if planes.is_full() {
            return None;
        }
        let (plane, left) = first_plane(rest)?;
        planes.push(plane);
        rest = left;
    }
    Some(planes)
}

// By what a view judges nodes.
fn measure_told(number: u32) -> Option<Measure>
    ensures { result ≡ measure_told number }
{
    match number {
        0 => Some(Measure::Error),
        1 => Some(Measure::Deviation),
        _ => None,
    }
}

// The view that is asked for, if one is.
fn view_of(look: &Look, planes: &[i64]) -> Option<View>
    ensures some { IfSome result (AskFor look.now planes.now) }
    ensures none { IfNone result ((view : View) → AskFor look.now planes.now view → ⊥) }
{
    let measure = measure_told(look.measure)?;
    let planes = planes_of(planes)?;
    let view = View::new(
        look.eye_x,
        look.eye_y,
        look.eye_z,
        look.focal,
        look.tolerance,
        look.silhouette,
        planes,
    )?;
    match measure {
        Measure::Error => Some(view),
        Measure::Deviation => Some(view.by_deviation()),
    }
}

// How many moves a view made, and how many are left.
fn moved_of(adapted: Adapted) -> Moved
    ensures { result ≡ moves_told adapted }
{
    match adapted {
        Adapted::Settled { moves } => Moved { moves, left: 0 },
        Adapted::Spent { moves, left } => Moved { moves, left },
    }
}

/// Adapts the mesh to a view.
#[unsafe(no_mangle)]
pub extern "C" fn vdpm_view(
    alloc: Global,
    handle: &mut Handle,
    look: &Look,
    planes: &[i64],
    moved: &mut Moved,
) -> u32
    requires { IsSound handle.old }
    ensures done { (v : Viewed) → Has handle.old v → result ≡ 0
        → (w : Viewed) × (view : View) × Has handle.new w × AskFor look.now planes.now view
        × Looked v view moved.new w }
    ensures out_of_range { (v : Viewed) → Has handle.old v
        → (result ≡ 2) ↔ ((view : View) → AskFor look.now planes.now view → ⊥) }
    ensures statuses { (v : Viewed) → Has handle.old v → result ≢ 0 → result ≡ 2 }
    ensures kept { (v : Viewed) → Has handle.old v → result ≢ 0
        → Has handle.new v × (moved.new ≡ moved.old) }
    ensures not_so { handle.old.open ≢ 1 → (result ≡ 6) × (handle.new ≡ handle.old)
        × (moved.new ≡ moved.old) }
{
    if handle.open != 1 {
        return NOT_SO;
    }
    let Some(view) = view_of(look, planes) else {
        return OUT_OF_RANGE;
    };
    let mut viewer = take(alloc, handle);
    let adapted = viewer.look(&view);
    put(handle, viewer);
    *moved = moved_of(adapted);
    DONE
}

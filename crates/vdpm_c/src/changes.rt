//! The exported function that tells a change.
ghost use Rattle.std.specs.Prelude.{◌≡◌, ◌≢◌, ◌↔◌, length};
ghost use Rattle.pm_change.specs.Arrays.{sizes_of_change, ChangeFits, BeginWith, LeavesBehind};
ghost use Rattle.pm_session.specs.Session.{change_since};
ghost use Rattle.pm_viewer.specs.Viewing.{Viewed};
ghost use Rattle.vdpm_c.specs.Border.{IsSound, Has, IsMarked, change_counts};

use crate::holding::{put, take};
use crate::statuses::{DONE, NO_ROOM, NOT_SO};
use crate::tables::{ChangeCounts, Handle};
use pm_change::ChangeSizes;
use std::alloc::Global;

// The sizes of a change as C takes them.
fn counts_of(sizes: ChangeSizes) -> ChangeCounts
    ensures { result ≡ change_counts sizes }
{
    ChangeCounts {
        gone_faces: sizes.gone_faces,
        gone_nodes: sizes.gone_nodes,
        new_nodes: sizes.new_nodes,
        put_faces: sizes.put_faces,
    }
}

/// Writes what changed since the marked front, and marks the front as it stands.
#[unsafe(no_mangle)]
pub extern "C" fn vdpm_change(
    alloc: Global,
    handle: &mut Handle,
    gone_faces: &mut [u32],
    gone_nodes: &mut [u32],
    new_nodes: &mut [u32],
    new_places: &mut [i32],
    put_faces: &mut [u32],
    put_corners: &mut [u32],
    counts: &mut ChangeCounts,
) -> u32
    requires { IsSound handle.old }
    ensures fits { (v : Viewed) → Has handle.old v → (result ≡ 0)
        ↔ ChangeFits (sizes_of_change (change_since v.shown)) (length gone_faces.old)
        (length gone_nodes.old) (length new_nodes.old) (length new_places.old)
        (length put_faces.old) (length put_corners.old) }
    ensures counts { (v : Viewed) → Has handle.old v
        → counts.new ≡ change_counts (sizes_of_change (change_since v.shown)) }
    ensures arrays { (v : Viewed) → Has handle.old v → result ≡ 0
        → BeginWith (change_since v.shown) gone_faces.new gone_nodes.new new_nodes.new
        new_places.new put_faces.new put_corners.new }
    ensures behind { (v : Viewed) → Has handle.old v → result ≡ 0
        → LeavesBehind (change_since v.shown) gone_faces.old gone_nodes.old new_nodes.old
        new_places.old put_faces.old put_corners.old gone_faces.new gone_nodes.new new_nodes.new
        new_places.new put_faces.new put_corners.new }
    ensures marked { (v : Viewed) → Has handle.old v → result ≡ 0
        → (w : Viewed) × Has handle.new w × IsMarked v w }
    ensures no_room { (v : Viewed) → Has handle.old v → result ≢ 0
        → (result ≡ 7) × Has handle.new v × (gone_faces.new ≡ gone_faces.old)
        × (gone_nodes.new ≡ gone_nodes.old) × (new_nodes.new ≡ new_nodes.old)
        × (new_places.new ≡ new_places.old) × (put_faces.new ≡ put_faces.old)
        × (put_corners.new ≡ put_corners.old) }
    ensures not_so { handle.old.open ≢ 1 → (result ≡ 6) × (handle.new ≡ handle.old)
        × (gone_faces.new ≡ gone_faces.old) × (gone_nodes.new ≡ gone_nodes.old)
        × (new_nodes.new ≡ new_nodes.old) × (new_places.new ≡ new_places.old)
        × (put_faces.new ≡ put_faces.old) × (put_corners.new ≡ put_corners.old)
        × (counts.new ≡ counts.old) }
{
    if handle.open != 1 {
        return NOT_SO;
    }
    let mut viewer = take(alloc, handle);
    let told = viewer.change(
        gone_faces,
        gone_nodes,
        new_nodes,
        new_places,
        put_faces,
        put_corners,
    );
    put(handle, viewer);
    match told {
        Ok(sizes) => {
            *counts = counts_of(sizes);
            DONE
        }
        Err(sizes) => {
            *counts = counts_of(sizes);
            NO_ROOM
        }
    }
}

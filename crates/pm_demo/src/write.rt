//! The summary of a grid, line by line.
ghost use Rattle.std.specs.Prelude.{◌≡◌, ◌≤◌};
ghost use Rattle.pm_io.specs.Puts.{Puts};
ghost use Rattle.pm_forest.specs.Fronts.{no_records};
ghost use Rattle.pm_base.specs.Counts.{set_of};
ghost use Rattle.pm_demo.specs.Summary.{IsOfGrid, sizes_text, views_text};
ghost use Rattle.pm_demo.specs.Ending.{DemoEnds, DemoCounts};

use crate::lines::{put_grid, put_hierarchy};
use crate::scene::Scene;
use crate::views::{corner_view, middle_view};
use pm_forest::Hierarchy;
use pm_grid::grids_are_sound;
use pm_io::{Line, Sink, WriteFault, put_all};
use std::alloc::Global;

/// Why a summary isn't written whole.
#[derive(Clone, Copy, Debug, PartialEq, Eq)]
pub enum DemoFail {
    Write,
    OutOfMemory,
}

// Puts how large the grid and its hierarchy are.
fn put_sizes<K: Sink>(n: u32, h: &Hierarchy, out: &mut K) -> Result<(), WriteFault>
    requires most { n ≤ 256 }
    ensures { Puts K.Sink out.old out.new (sizes_text n h.now) result }
{
    grids_are_sound();
    let mut line = Line::new();
    put_grid(&mut line, n, (n + 1) * (n + 1), n * (n * 2));
    put_all(out, line.as_slice())?;
    put_hierarchy(&mut line, h);
    put_all(out, line.as_slice())
}

// Looks at the grid from three views, and puts the line of each.
fn put_views<K: Sink>(n: u32, scene: &mut Scene, out: &mut K) -> Result<(), WriteFault>
    requires most { n ≤ 256 }
    requires base { set_of scene.old.flags ≡ no_records }
    ensures { Puts K.Sink out.old out.new (views_text n scene.old.h) result }
{
    let middle = middle_view(n);
    let corner = corner_view(n);
    scene.show(0, &middle, out)?;
    scene.show(1, &corner, out)?;
    scene.show(2, &middle, out)
}

// Puts the summary of an opened grid.
fn put_summary<K: Sink>(n: u32, scene: &mut Scene, out: &mut K) -> Result<(), DemoFail>
    requires most { n ≤ 256 }
    requires of_grid { IsOfGrid n scene.old.h }
    requires base { set_of scene.old.flags ≡ no_records }
    ensures ends { DemoEnds n result (K.got out.old) (K.got out.new) }
    ensures counts { DemoCounts result (K.faults out.old) (K.faults out.new) }
{
    if let Err(WriteFault) = put_sizes(n, scene.hierarchy(), out) {
        return Err(DemoFail::Write);
    }
    match put_views(n, scene, out) {
        Ok(()) => Ok(()),
        Err(WriteFault) => Err(DemoFail::Write),
    }
}

/// Makes the grid of n times n cells, n from 1 to 256, simplifies it as far as pairs may be
/// collapsed, opens the hierarchy of that, adapts it to three views, and writes a summary: how
/// large the grid and the hierarchy are, and what each view shows. All memory is taken before the
/// first byte is written.
pub fn demo<K: Sink>(alloc: Global, n: u32, out: &mut K) -> Result<(), DemoFail>
    requires some { 1 ≤ n }
    requires most { n ≤ 256 }
    ensures ends { DemoEnds n result (K.got out.old) (K.got out.new) }
    ensures counts { DemoCounts result (K.faults out.old) (K.faults out.new) }
{
    let Ok(mut scene) = Scene::open(alloc, n) else {
        return Err(DemoFail::OutOfMemory);
    };
    put_summary(n, &mut scene, out)
}

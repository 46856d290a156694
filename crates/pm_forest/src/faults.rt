//! What is wrong with the next unit, by the rules of shape, over a forest that has those before it.
ghost use Rattle.std.specs.Prelude.{sum, OnOk, OnSome, IfNone, true, false, ◌≡◌};
ghost use Rattle.std.specs.Prelude.{◌+◌, ◌-◌, ◌<◌, ◌≤◌, ◌||◌, ◌&&◌, length, None, Some, IfOk};
ghost use Rattle.std.specs.Prelude.{IfErr, IfSome, is_some};
ghost use Rattle.pm_base.specs.declared.limits.TheConstants.{MOST_NODES};
ghost use Rattle.pm_base.specs.Place.{is_place, place_of};
ghost use Rattle.pm_forest.specs.Marks.{AreMarked};
ghost use Rattle.pm_forest.specs.Forest.{widths_of, leaf_count, Interval, interval_of, within};
ghost use Rattle.pm_forest.specs.Rules.{counts_are_bad, width_is_bad, root_inputs, node_inputs};
ghost use Rattle.pm_forest.specs.Rules.{face_inputs, root_fault, base_is_bad, base_fault};
ghost use Rattle.pm_forest.specs.Rules.{split_is_bad, children_fault, head_fault, fields_before};
ghost use Rattle.pm_forest.specs.Shaping.{next_root, started, SplitFits};
ghost use Rattle.pm_forest.specs.Tables.{grown};

use crate::growing::Growing;
use crate::marks::{is_face_input_bad, is_second_input_bad, is_vertex_input_bad};
use crate::{Child, Counts, Face, Head, Record, Root, Shape};
use pm_base::{MOST_FACES, MOST_VERTICES, Point};

#[tactic(auto, unfolding(crate::specs::Rules::counts_are_bad))]
pub fn are_counts_bad(c: Counts) -> bool
    ensures { result ≡ counts_are_bad c }
{
    c.leaves > MOST_VERTICES
        || c.bases > MOST_FACES
        || c.roots > c.leaves
        || c.roots == 0 && c.leaves != 0
        || c.records != c.leaves - c.roots
}

#[tactic(auto, unfolding(crate::specs::Rules::width_is_bad))]
fn is_width_bad(c: Counts, taken: u32, before: u32, width: u32) -> bool
    requires { before < c.roots }
    ensures room { result ≡ false → taken + width ≤ c.leaves }
    ensures exact { result ≡ width_is_bad c taken before width }
{
    let after = c.roots - 1 - before;
    let all = u64::from(taken) + u64::from(width);
    width == 0
        || all + u64::from(after) > u64::from(c.leaves)
        || before + 1 == c.roots && all != u64::from(c.leaves)
}

/// The next root, or what is wrong with it.
#[tactic(auto, unfolding(crate::specs::Rules::root_fault))]
pub fn next_root(
    forest: &Growing,
    flags: &[bool],
    r: [i32; 3],
    width: u32,
    input: u32,
) -> Result<Root, Shape>
    requires next { length forest.now.h.roots < forest.now.counts.roots }
    requires marked { AreMarked flags.now (root_inputs forest.now.h.roots) }
    requires flags { length flags.now ≡ forest.now.counts.leaves }
    ensures root { IfOk result (λ root. root ≡ next_root r width input) }
    ensures fits { IfOk result (λ root. root_fault forest.now.counts forest.now.h.roots root
        ≡ None) }
    ensures fault { IfErr result
        (λ e. root_fault forest.now.counts forest.now.h.roots (next_root r width input) ≡ Some e) }
    ensures room { IfOk result
        (λ root. sum (widths_of forest.now.h.roots) + root.width ≤ forest.now.counts.leaves) }
    ensures within { IfOk result (λ root. root.input ≤ length flags.now) }
{
    let before = forest.roots().len() as u32;
    let Some(place) = Point::new(r[0], r[1], r[2]) else {
        return Err(Shape::BadRoot(before));
    };
    if is_width_bad(forest.counts(), forest.leaves(), before, width) {
        return Err(Shape::BadRoot(before));
    }
    if is_vertex_input_bad(flags, width, input) {
        return Err(Shape::BadInput(before));
    }
    Ok(Root {
        place,
        width,
        input,
    })
}

#[tactic(auto, unfolding(crate::specs::Rules::base_is_bad))]
fn is_base_bad(forest: &Growing, f: &Face) -> bool
    ensures { result ≡ base_is_bad forest.now.h.roots f.now }
{
    let leaves = forest.leaves();
    if f.a >= leaves || f.b >= leaves || f.c >= leaves {
        return true;
    }
    let (a, b, c) = (forest.owner(f.a), forest.owner(f.b), forest.owner(f.c));
    a == b || b == c || a == c
}

/// What is wrong with the next base face.
#[tactic(auto, unfolding(crate::specs::Rules::base_fault))]
pub fn base_fault(forest: &Growing, flags: &[bool], f: &Face) -> Option<Shape>
    requires marked { AreMarked flags.now (face_inputs forest.now.h.bases) }
    requires flags { length flags.now ≡ MOST_FACES }
    ensures exact { base_fault forest.now.h.roots forest.now.h.bases f.now ≡ result }
    ensures within { result ≡ None → f.now.input ≤ length flags.now }
{
    let before = forest.bases().len() as u32;
    if is_base_bad(forest, f) {
        Some(Shape::BadFace(before))
    } else if is_face_input_bad(flags, f.input) {
        Some(Shape::BadInput(forest.roots().len() as u32 + before))
    } else {
        None
    }
}

/// The number of the next input field.
pub(crate) fn next_field(forest: &Growing) -> u32
    ensures value { result ≡ fields_before (grown forest.now) }
    ensures most { result ≤ MOST_NODES + MOST_FACES }
{
    forest.nodes() + forest.faces()
}

#[tactic(auto, unfolding(crate::specs::Rules::split_is_bad))]
fn is_split_bad(forest: &Growing, s: u32, width: u32) -> bool
    requires settled { forest.now.coming ≡ None }
    ensures exact { split_is_bad forest.now.h s width ≡ result }
    ensures fits { result ≡ false → SplitFits forest.now.h s width }
{
    if s >= forest.nodes() {
        return true;
    }
    forest.splitter(s).is_some() || width == 0 || forest.width(s) <= width
}

// The places of the two children, where they are in range.
fn places(head: &Head) -> Option<(Point, Point)>
    ensures some { IfSome result (λ p. (p.0 ≡ place_of head.now.t) × (p.1 ≡ place_of head.now.u)) }
    ensures good { OnSome result ((is_place (place_of head.now.t) && is_place (place_of head.now.u))
        ≡ true) }
    ensures none { IfNone result ((is_place (place_of head.now.t) && is_place (place_of head.now.u))
        ≡ false) }
{
    let t = Point::new(head.t[0], head.t[1], head.t[2])?;
    let u = Point::new(head.u[0], head.u[1], head.u[2])?;
    Some((t, u))
}

// What is wrong with the input numbers of the two children.
#[tactic(auto, unfolding(crate::specs::Rules::children_fault))]
fn children_fault(forest: &Growing, flags: &[bool], head: &Head, rest: u32) -> Option<Shape>
    requires settled { forest.now.coming ≡ None }
    requires fits { SplitFits forest.now.h head.now.s head.now.width }
    requires marked { AreMarked flags.now (node_inputs forest.now.h) }
    requires flags { length flags.now ≡ leaf_count forest.now.h }
    requires rest { let leaves : Interval = interval_of forest.now.h head.now.s in
        rest ≡ leaves.until - leaves.from - head.now.width }
    ensures exact { children_fault forest.now.h head.now ≡ result }
    ensures within_t { result ≡ None → head.now.t_input ≤ length flags.now }
    ensures within_u { result ≡ None → head.now.u_input ≤ length flags.now }
{
    let field = next_field(forest);
    if is_vertex_input_bad(flags, head.width, head.t_input) {
        Some(Shape::BadInput(field))
    } else if is_second_input_bad(flags, head.t_input, rest, head.u_input) {
        Some(Shape::BadInput(field + 1))
    } else {
        None
    }
}

/// The next record, with no face yet, or what is wrong with its head.
#[tactic(auto, unfolding(crate::specs::Rules::head_fault, crate::specs::Rules::head_is_bad))]
pub fn next_record(forest: &Growing, flags: &[bool], head: &Head) -> Result<Record, Shape>
    requires settled { forest.now.coming ≡ None }
    requires marked { AreMarked flags.now (node_inputs forest.now.h) }
    requires flags { length flags.now ≡ leaf_count forest.now.h }
    ensures split { IfOk result (λ r. r ≡ (started head.now).split) }
    ensures good { OnOk result (head_fault forest.now.h head.now ≡ None) }
    ensures fits { OnOk result (SplitFits forest.now.h head.now.s head.now.width) }
    ensures fault { IfErr result (λ e. head_fault forest.now.h head.now ≡ Some e) }
    ensures within_t { OnOk result (head.now.t_input ≤ length flags.now) }
    ensures within_u { OnOk result (head.now.u_input ≤ length flags.now) }
{
    let number = forest.records().len() as u32;
    if is_split_bad(forest, head.s, head.width) || head.presence == 0 || head.presence > 3 {
        return Err(Shape::BadRecord(number));
    }
    let Some((t, u)) = places(head) else {
        return Err(Shape::BadRecord(number));
    };
    let rest = forest.width(head.s) - head.width;
    if let Some(fault) = children_fault(forest, flags, head, rest) {
        return Err(fault);
    }
    Ok(Record {
        s: head.s,
        width: head.width,
        t: Child {
            place: t,
            input: head.t_input,
        },
        u: Child {
            place: u,
            input: head.u_input,
        },
        left: None,
        right: None,
    })
}

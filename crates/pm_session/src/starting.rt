//! How a session starts: what it owns is made.
ghost use Rattle.std.specs.Prelude.{◌≡◌, ◌≢◌, false, replicate, IfOk, IfErr, OnOk};
ghost use Rattle.pm_base.specs.Counts.{set_of};
ghost use Rattle.pm_base.specs.Sides.{NoSideTwice};
ghost use Rattle.pm_forest.specs.Forest.{record_count};
ghost use Rattle.pm_forest.specs.Fronts.{no_records};
ghost use Rattle.pm_beyond.specs.Walks.{leaf_net};
ghost use Rattle.pm_beyond.specs.Valid.{IsValid};
ghost use Rattle.pm_load.specs.Faults.{IsLoadFault};
ghost use Rattle.pm_morph.specs.Marks.{AreMarksOf};
ghost use Rattle.pm_session.specs.Script.{at_first};
ghost use Rattle.pm_session.specs.Session.{AreToolsOf, HasItsMeasures, state_of};

use crate::grammar::Grammar;
use crate::session::Session;
use crate::tools::Tools;
use pm_forest::Hierarchy;
use pm_front::Front;
use pm_load::{LoadFail, open_front};
use pm_morph::Marker;
use std::alloc::{AllocError, Global};

// A value in a box of its own. Its type is open here: a function that drops tables by their names
// where there is no memory is slow to prove.
fn boxed<T: Drop>(alloc: Global, value: T) -> Result<Box<T>, AllocError>
    ensures { IfOk result (λ b. b.value ≡ value) }
{
    Ok(Box::new(alloc, value)?)
}

// The base front of a valid hierarchy.
fn base_front(alloc: Global, h: Hierarchy) -> Result<Box<Front>, LoadFail>
    ensures h { IfOk result (λ f. f.value.h ≡ h) }
    ensures flags { IfOk result (λ f. f.value.flags ≡ replicate (record_count h) false) }
    ensures valid { OnOk result (IsValid h) }
    ensures fault { IfErr result (IsLoadFault h) }
    ensures refused { IfErr result (λ e. e ≢ LoadFail.OutOfMemory → IsValid h → ⊥) }
{
    let front = open_front(alloc, h)?;
    match boxed(alloc, front) {
        Ok(front) => Ok(front),
        Err(_) => Err(LoadFail::OutOfMemory),
    }
}

// What a session over a hierarchy works with.
fn boxed_tools(alloc: Global, h: &Hierarchy, grammar: Grammar) -> Result<Box<Tools>, AllocError>
    requires { NoSideTwice (leaf_net h.now) }
    ensures are { IfOk result (λ tools. AreToolsOf h.now tools.value) }
    ensures serve { IfOk result (λ tools. HasItsMeasures grammar tools.value.measures) }
{
    let tools = Tools::new(alloc, h, grammar)?;
    boxed(alloc, tools)
}

// The same, and the marks of its records.
fn outfit(
    alloc: Global,
    h: &Hierarchy,
    grammar: Grammar,
) -> Result<(Box<Tools>, Marker), AllocError>
    requires { NoSideTwice (leaf_net h.now) }
    ensures tools { IfOk result (λ o. AreToolsOf h.now o.0.value) }
    ensures serve { IfOk result (λ o. HasItsMeasures grammar o.0.value.measures) }
    ensures marks { IfOk result (λ o. AreMarksOf h.now o.1) }
    ensures base { IfOk result (λ o. set_of o.1 ≡ no_records) }
{
    let tools = boxed_tools(alloc, h, grammar)?;
    let marker = Marker::new(alloc, h)?;
    Ok((tools, marker))
}

impl Session {
    /// A session that shows the base front of a valid hierarchy. It is refused as `open_front`
    /// says. All the memory that a script can want is taken here.
    pub fn start(
        alloc: Global,
        h: Hierarchy,
        grammar: Grammar,
        budget: u32,
    ) -> Result<Session, LoadFail>
        ensures shown { IfOk result (λ s. (s.h ≡ h) × (s.grammar ≡ grammar)
            × (state_of s ≡ at_first budget)) }
        ensures valid { OnOk result (IsValid h) }
        ensures fault { IfErr result (IsLoadFault h) }
        ensures refused { IfErr result (λ e. e ≢ LoadFail.OutOfMemory → IsValid h → ⊥) }
    {
        let front = base_front(alloc, h)?;
        front.invariant();
        let Ok((tools, marker)) = outfit(alloc, front.hierarchy(), grammar) else {
            return Err(LoadFail::OutOfMemory);
        };
        Ok(Session {
            grammar,
            front,
            tools,
            marker,
            budget,
        })
    }
}

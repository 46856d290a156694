//! The laws of outcomes.
ghost use Rattle.pm_commands.specs.Outcome.{LiveDoesAsView, OneOutcome, SomeOutcome};
ghost use Rattle.pm_commands.specs.Frames.{ScriptsKeepSetsClosed};

/// States that each input has an outcome for what is asked, and only one: one text, one fault or
/// none, and one place that decides them; and that a script keeps the split records of a valid
/// hierarchy closed, so that each frame shows a closed set; and that a script without a fault does
/// the same in `live` as in `view`. It does nothing, and callers cite its clauses.
#[tactic(auto, using(crate::proofs::SomeOutcomes::some_outcome, crate::proofs::OutcomeLaws::one_outcome))]
pub fn outcomes_are_sound()
    ensures some { SomeOutcome }
    ensures one { OneOutcome }
    ensures closed { ScriptsKeepSetsClosed }
    ensures live { LiveDoesAsView }
{}

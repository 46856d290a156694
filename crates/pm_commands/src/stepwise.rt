//! The program `simplify` in steps, so that who waits for it is told how far it is.
ghost use Rattle.std.specs.Prelude.{◌≡◌, ◌≤◌, true, false, None, ℕ, List};
ghost use Rattle.std.specs.Prelude.{◌⊎◌, IfOk, IfErr, IfSome, OnOk};
ghost use Rattle.pm_fine_costs.specs.Steps.{GoesOnTo, IsProgressOf};
ghost use Rattle.pm_commands.specs.declared.asked.Asked.TheVariants as asked;
ghost use Rattle.pm_commands.specs.declared.asked.Border.{Border};
ghost use Rattle.pm_commands.specs.declared.asked.Border.TheVariants as borders;
ghost use Rattle.pm_io.specs.Bytes.{AtEnd};
ghost use Rattle.pm_commands.specs.Input.{Stops};
ghost use Rattle.pm_commands.specs.Simplified.{IsSimplifiedText};
ghost use Rattle.pm_commands.specs.Stepwise.{IsBegun, IsRunOf, SimplifiesText, HasStepped};
ghost use Rattle.pm_commands.specs.Outcome.{GivesMeshBack};
ghost use Rattle.pm_commands.specs.Frames.{ShowsSurfacesOf};
ghost use Rattle.pm_commands.specs.Borders.{FramesShowBorder};

use crate::asked::Border;
use crate::fault::{CommandFail, InputFail};
use crate::owned::put_stream;
use crate::simplify::kept_flags;
use crate::surface::read_given_surface;
use pm_fine_costs::{FineRun, Progress};
use pm_forest::Hierarchy;
use pm_io::{Sink, Source};
use pm_number::{OutOfMemory, from_log};
use std::alloc::Global;
use std::marker::Model;

/// A mesh that is being simplified as the program `simplify` does it, and with how many decimals a
/// coordinate it is written then. Letting it go gives that up.
#[derive(Drop)]
pub struct Simplifying {
    run: FineRun,
    digits: u32,
}

impl Model for Simplifying {
    ghost use Rattle.std.specs.Prelude.{◌≤◌};
    ghost use Rattle.pm_commands.specs.Stepwise.{SteppedRun};

    ghost Value = { SteppedRun };

    ghost view = { λ s. record { run = s.run; digits = s.digits } };

    ghost invariant = { λ s. s.digits ≤ 4 };
}

impl Simplifying {
    /// Reads an OBJ text, and begins to simplify its mesh to a number of faces, with its border
    /// free or kept. It refuses what `simplify` refuses. No collapse is done here.
    pub fn begin<S: Source>(
        alloc: Global,
        target: u32,
        digits: u32,
        border: Border,
        input: &mut S,
    ) -> Result<Simplifying, InputFail>
        requires few { digits ≤ 4 }
        requires not_ended { S.ended input.old ≡ false }
        ensures begun { IfOk result (λ s. IfSome (S.left input.old)
            (λ bytes. IsBegun border target digits bytes s)) }
        ensures read_whole { OnOk result (AtEnd (S.left input.new)) }
        ensures count { OnOk result (S.faults input.new ≡ S.faults input.old) }
        ensures err { IfErr result (λ e. Stops (IsSimplifiedText border target digits) e
            (S.left input.old) (S.left input.new) (S.faults input.old) (S.faults input.new)) }
    {
        let surface = read_given_surface(alloc, digits, input)?;
        let kept = kept_flags(alloc, &surface, border)?;
        let run = FineRun::begin(alloc, surface, kept, target)?;
        Ok(Simplifying { run, digits })
    }

    /// Goes on by at most so many collapses, or to the end. At the end nothing is done.
    pub fn go_on(&mut self, most: u32)
        ensures goes_on { HasStepped most self.old self.new }
    {
        self.run.go_on(most);
    }

    /// How far it is.
    pub fn progress(&self) -> Progress
        ensures { IsProgressOf self.now.run result }
    {
        self.run.progress()
    }

    // The hierarchy of the run, which is at its end.
    fn into_hierarchy(self, alloc: Global) -> Result<Hierarchy, OutOfMemory>
        requires { self.run.ended ≡ true }
        ensures made { IfOk result (SimplifiesText self) }
    {
        let (mesh, log) = self.run.into_parts();
        from_log(alloc, &mesh, &log)
    }

    /// Writes the stream text of the run's hierarchy, as `simplify` does; the run is at its end.
    pub fn finish<K: Sink>(self, alloc: Global, out: &mut K) -> Result<(), CommandFail>
        requires ended { self.run.ended ≡ true }
        ensures gives_back { OnOk result ((border : Border) (bytes : List ℕ)
            → IsRunOf border bytes self
            → GivesMeshBack (asked.Simplify self.run.target self.digits border) bytes
            (K.got out.old) (K.got out.new)) }
        ensures surfaces { OnOk result ((border : Border) (bytes : List ℕ)
            → IsRunOf border bytes self
            → ShowsSurfacesOf (IsSimplifiedText border self.run.target self.digits) self.digits
            bytes (K.got out.old) (K.got out.new)) }
        ensures meets { OnOk result ((bytes : List ℕ) → IsRunOf borders.Kept bytes self
            → FramesShowBorder self.run.target self.digits bytes (K.got out.old)
            (K.got out.new)) }
        ensures fails { IfErr result (λ e. (e ≡ CommandFail.Write)
            ⊎ ((e ≡ CommandFail.OutOfMemory) × (K.got out.new ≡ K.got out.old)
            × (K.faults out.new ≡ K.faults out.old))) }
        ensures done { OnOk result (K.faults out.new ≡ K.faults out.old) }
    {
        let digits = self.digits;
        let h = self.into_hierarchy(alloc)?;
        put_stream(h, digits, out)?;
        Ok(())
    }
}

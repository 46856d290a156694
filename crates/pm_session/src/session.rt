//! A session over one hierarchy. All its memory is taken when it starts.
ghost use Rattle.std.specs.Prelude.{◌≡◌, ◌<◌, true, length, IfErr, OnOk, OnErr};
ghost use Rattle.pm_io.specs.Bytes.{Gains, GainsPart};
ghost use Rattle.pm_io.specs.Causes.{Rose};
ghost use Rattle.pm_io.specs.Puts.{Puts};
ghost use Rattle.pm_forest.specs.Forest.{record_count};
ghost use Rattle.pm_base.specs.Counts.{set_of};
ghost use Rattle.pm_beyond.specs.Moves.{split_fault, collapse_fault};
ghost use Rattle.pm_front.specs.Shown.{active_nodes, kept_faces};
ghost use Rattle.pm_frame.specs.Frame.{frame_text};
ghost use Rattle.pm_change.specs.Texts.{change_text};
ghost use Rattle.pm_pick.specs.Picks.{pick_of};
ghost use Rattle.pm_strips.specs.Shown.{strips_text};
ghost use Rattle.pm_session.specs.Script.{
  command_of,
  line_deed,
  after_split,
  after_collapse,
  adapted_to,
  after_view,
  shape_reply,
  has_measure,
  is_fraction,
  morph_reply,
};
ghost use Rattle.pm_session.specs.Level.{level_reply, split_count, greatest_error};
ghost use Rattle.pm_session.specs.Level.{greatest_deviation};
ghost use Rattle.pm_session.specs.Session.{LineEnds, LineCounts};
ghost use Rattle.pm_session.specs.Session.{state_of};

use crate::command::{Command, command_of};
use crate::ending::{LineFail, Next, after_reply};
use crate::grammar::Grammar;
use crate::level::{Level, put_level};
use crate::morphing::{is_fraction, put_morph};
use crate::picking::put_pick;
use crate::reply::{put_adapted, put_answer, put_shape};
use crate::tools::Tools;
use pm_beyond::MoveFault;
use pm_frame::write_frame;
use pm_front::Front;
use pm_io::{Line, Sink, WriteFault, put_all};
use pm_morph::Marker;
use pm_pick::{Hit, Ray};
use pm_refine::Adapted;
use pm_view::View;
use std::marker::Model;

/// A hierarchy that is being shown. Contracts see it, which lines a script may have, which records
/// are split and which are marked, and the budget of moves a view.
#[derive(Drop)]
pub struct Session {
    pub(crate) grammar: Grammar,
    pub(crate) front: Box<Front>,
    pub(crate) tools: Box<Tools>,
    pub(crate) marker: Marker,
    pub(crate) budget: u32,
}

impl Model for Session {
    ghost use Rattle.pm_session.specs.Session.{Shown, IsFitting};

    ghost Value = { Shown };

    ghost view = { λ s. record {
      h = s.front.value.h;
      grammar = s.grammar;
      flags = s.front.value.flags;
      marks = s.marker;
      budget = s.budget;
    } };

    ghost invariant = { λ s. IsFitting s.front.value.h s.grammar s.tools.value s.marker };
}

impl Session {
    // Writes the frame.
    fn show<K: Sink>(&self, out: &mut K) -> Result<(), WriteFault>
        ensures { Puts K.Sink out.old out.new (frame_text self.now.h (set_of self.now.flags))
            result }
    {
        write_frame(&self.front, out)
    }

    /// What a line asks for.
    pub(crate) fn command(&self, text: &[u8]) -> Command
        ensures { result ≡ command_of self.now.grammar text.now }
    {
        command_of(self.grammar, text)
    }

    /// How many records there are.
    pub(crate) fn records(&self) -> u32
        ensures { result ≡ record_count self.now.h }
    {
        self.front.hierarchy().records()
    }

    /// Splits a record where that is legal, and answers what forbids it where it isn't.
    #[tactic(auto, using(crate::proofs::Deeds::split_made, crate::proofs::Deeds::split_refused))]
    pub(crate) fn split(&mut self, k: u32) -> Option<MoveFault>
        requires { k < record_count self.old.h }
        ensures answer { result ≡ split_fault self.old.h (set_of self.old.flags) k }
        ensures after { set_of self.new.flags ≡ after_split self.old.h (set_of self.old.flags) k }
        ensures same { (self.new.h ≡ self.old.h) × (self.new.grammar ≡ self.old.grammar)
            × (self.new.marks ≡ self.old.marks) × (self.new.budget ≡ self.old.budget) }
    {
        match self.front.split(k) {
            Ok(()) => None,
            Err(fault) => Some(fault),
        }
    }

    /// Collapses a record where that is legal, and answers what forbids it where it isn't.
    #[tactic(auto, using(crate::proofs::Deeds::collapse_made, crate::proofs::Deeds::collapse_refused))]
    pub(crate) fn collapse(&mut self, k: u32) -> Option<MoveFault>
        requires { k < record_count self.old.h }
        ensures answer { result ≡ collapse_fault self.old.h (set_of self.old.flags) k }
        ensures after { set_of self.new.flags ≡ after_collapse self.old.h (set_of self.old.flags)
            k }
        ensures same { (self.new.h ≡ self.old.h) × (self.new.grammar ≡ self.old.grammar)
            × (self.new.marks ≡ self.old.marks) × (self.new.budget ≡ self.old.budget) }
    {
        match self.front.collapse(k) {
            Ok(()) => None,
            Err(fault) => Some(fault),
        }
    }

    /// Adapts the front to a view by a measure that the script may have, as its line does, and
    /// answers how many moves were made and how many are left.
    #[tactic(auto, using(crate::proofs::MeasureLaws::has_enough))]
    pub fn look(&mut self, view: &View) -> Adapted
        requires { has_measure self.old.grammar view.now.measure ≡ true }
        ensures answer { result ≡ adapted_to self.old.h self.old.budget (set_of self.old.flags)
            view.now }
        ensures after { set_of self.new.flags
            ≡ after_view self.old.h self.old.budget (set_of self.old.flags) view.now }
        ensures same { (self.new.h ≡ self.old.h) × (self.new.grammar ≡ self.old.grammar)
            × (self.new.marks ≡ self.old.marks) × (self.new.budget ≡ self.old.budget) }
    {
        self.tools.adapt(&mut self.front, view, self.budget)
    }

    // The face of the input that a ray hits first.
    fn pick(&self, ray: &Ray) -> Option<Hit>
        ensures { result ≡ pick_of self.now.h ray.now }
    {
        self.tools.pick(self.front.hierarchy(), ray)
    }

    // Writes the measure.
    #[tactic(auto, unfolding(crate::specs::Script::shape_reply))]
    fn measure<K: Sink>(&mut self, out: &mut K) -> Result<(), WriteFault>
        ensures puts { Puts K.Sink out.old out.new (shape_reply self.old.h (set_of self.old.flags))
            result }
        ensures same { self.new ≡ self.old }
    {
        let measure = self.tools.measure(&self.front);
        let mut line = Line::new();
        put_shape(&mut line, measure);
        put_all(out, line.as_slice())
    }

    /// The level of detail that the front shows, in a script of `live`. It costs a pass over the
    /// records and two over the nodes.
    pub fn level(&self) -> Level
        requires { self.now.grammar ≡ Grammar.Live }
        ensures nodes { result.nodes ≡ length (active_nodes self.now.h (set_of self.now.flags)) }
        ensures faces { result.faces ≡ length (kept_faces self.now.h (set_of self.now.flags)) }
        ensures split { result.split ≡ split_count self.now.h (set_of self.now.flags) }
        ensures error { result.error ≡ greatest_error self.now.h (set_of self.now.flags) }
        ensures deviation { result.deviation
            ≡ greatest_deviation self.now.h (set_of self.now.flags) }
    {
        self.tools.level(&self.front)
    }

    // Writes it.
    fn tell_level<K: Sink>(&self, out: &mut K) -> Result<(), WriteFault>
        requires { self.now.grammar ≡ Grammar.Live }
        ensures { Puts K.Sink out.old out.new (level_reply self.now.h (set_of self.now.flags))
            result }
    {
        let level = self.level();
        let mut line = Line::new();
        put_level(&mut line, level);
        put_all(out, line.as_slice())
    }

    // Writes the strips.
    fn strip<K: Sink>(&mut self, out: &mut K) -> Result<(), WriteFault>
        ensures puts { Puts K.Sink out.old out.new (strips_text self.old.h (set_of self.old.flags))
            result }
        ensures same { self.new ≡ self.old }
    {
        self.tools.write_strips(&self.front, out)
    }

    /// Marks the split records.
    pub(crate) fn mark(&mut self)
        ensures marked { set_of self.new.marks ≡ set_of self.old.flags }
        ensures same { (self.new.h ≡ self.old.h) × (self.new.grammar ≡ self.old.grammar)
            × (self.new.flags ≡ self.old.flags) × (self.new.budget ≡ self.old.budget) }
    {
        self.marker.mark(&self.front);
    }

    // Writes what changed since the marked front, and marks the front as it stands.
    fn tell_change<K: Sink>(&mut self, out: &mut K) -> Result<(), WriteFault>
        ensures puts { let text =
            change_text self.old.h (set_of self.old.marks) (set_of self.old.flags) in
            Puts K.Sink out.old out.new text result }
        ensures marked { set_of self.new.marks ≡ set_of self.old.flags }
        ensures same { (self.new.h ≡ self.old.h) × (self.new.grammar ≡ self.old.grammar)
            × (self.new.flags ≡ self.old.flags) × (self.new.budget ≡ self.old.budget) }
    {
        let told = self
            .tools
            .write_change(&self.front, self.marker.marks(), out);
        self.mark();
        told
    }

    /// Sets the budget of moves a view.
    pub(crate) fn set_budget(&mut self, moves: u32)
        ensures budget { self.new.budget ≡ moves }
        ensures same { (self.new.h ≡ self.old.h) × (self.new.grammar ≡ self.old.grammar)
            × (self.new.flags ≡ self.old.flags) × (self.new.marks ≡ self.old.marks) }
    {
        self.budget = moves;
    }

    // Writes the geomorph at a/b of the way from the marked front, or which marked record isn't
    // split.
    fn morph<K: Sink>(&mut self, a: u32, b: u32, out: &mut K) -> Result<(), WriteFault>
        requires { is_fraction a b ≡ true }
        ensures ok { let text =
            morph_reply self.old.h (set_of self.old.marks) (set_of self.old.flags) a b in
            OnOk result (Gains (K.got out.old) (K.got out.new) text) }
        ensures err { let text =
            morph_reply self.old.h (set_of self.old.marks) (set_of self.old.flags) a b in
            OnErr result (GainsPart (K.got out.old) (K.got out.new) text) }
        ensures count { OnOk result (K.faults out.new ≡ K.faults out.old) }
        ensures rose { OnErr result (Rose (K.faults out.old) (K.faults out.new)) }
        ensures same { self.new ≡ self.old }
    {
        put_morph(&mut self.marker, &self.front, a, b, out)
    }

    /// Does one script line, which is given without its LF, and writes its whole reply. BadLine
    /// comes exactly where the line is none of the forms, and NoRecord exactly where it names a
    /// record that isn't there; nothing is changed or written then. Write comes only where the sink
    /// failed: the line's move stands, and the sink gained a part of the reply from its front, and
    /// not the whole. It takes no memory.
    pub fn line<K: Sink>(&mut self, text: &[u8], out: &mut K) -> Result<Next, LineFail>
        ensures ends { let s = state_of self.old in
            LineEnds (line_deed self.old.h self.old.grammar s text.now) result s (state_of self.new)
            (K.got out.old) (K.got out.new) }
        ensures counts { LineCounts result (K.faults out.old) (K.faults out.new) }
        ensures same { (self.new.h ≡ self.old.h) × (self.new.grammar ≡ self.old.grammar) }
        ensures refused { IfErr result (λ e. (e ≡ LineFail.Write → ⊥) → self.new ≡ self.old) }
    {
        match self.command(text) {
            Command::Quit => Ok(Next::Quit),
            Command::Bad => Err(LineFail::BadLine),
            Command::Show => after_reply(self.show(out)),
            Command::Measure => after_reply(self.measure(out)),
            Command::Strip => after_reply(self.strip(out)),
            Command::Level => after_reply(self.tell_level(out)),
            Command::Change => after_reply(self.tell_change(out)),
            Command::Budget(moves) => {
                self.set_budget(moves);
                after_reply(put_answer(None, out))
            }
            Command::Look(view) => after_reply(put_adapted(self.look(&view), out)),
            Command::Mark => {
                self.mark();
                after_reply(put_answer(None, out))
            }
            Command::Morph(a, b) if is_fraction(a, b) => after_reply(self.morph(a, b, out)),
            Command::Morph(_, _) => Err(LineFail::BadLine),
            Command::Pick(ray) => after_reply(put_pick(self.pick(&ray), out)),
            Command::Split(k) if k < self.records() => after_reply(put_answer(self.split(k), out)),
            Command::Collapse(k) if k < self.records() => {
                after_reply(put_answer(self.collapse(k), out))
            }
            Command::Split(_) | Command::Collapse(_) => Err(LineFail::NoRecord),
        }
    }

    /// The front as it stands.
    pub fn front(&self) -> &Front
        ensures h { result.now.h ≡ self.now.h }
        ensures flags { result.now.flags ≡ self.now.flags }
    {
        &self.front
    }
}

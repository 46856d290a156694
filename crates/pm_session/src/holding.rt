//! Does lines whose replies may be held in a page.
ghost use Rattle.std.specs.Prelude.{◌≡◌, ◌+◌, ◌≤◌, ℕ, List, length, true, false};
ghost use Rattle.pm_io.specs.declared.page.TheConstants.{PAGE_BYTES};
ghost use Rattle.pm_session.specs.Script.{Replies, State, command_of, line_deed};
ghost use Rattle.pm_session.specs.Session.{LineCounts, state_of};
ghost use Rattle.pm_session.specs.Holding.{HeldEnds, is_held};

use crate::command::Command;
use crate::ending::{LineFail, Next, after_reply};
use crate::reply::{put_reply, put_view_reply};
use crate::session::Session;
use pm_io::{Line, Page, Sink};

impl Session {
    // Does a line that makes moves, marks the front or sets the budget, and answers true with its
    // reply. False where the line is another one, and nothing is done then.
    fn short_reply(&mut self, text: &[u8], reply: &mut Line) -> bool
        ensures done { result ≡ true → line_deed self.old.h self.old.grammar (state_of self.old)
            text.now ≡ Replies reply.new (state_of self.new) }
        ensures none { result ≡ false → self.new ≡ self.old }
        ensures other { result ≡ false → is_held (command_of self.old.grammar text.now) ≡ true
            → (reply : List ℕ) (s : State)
            → line_deed self.old.h self.old.grammar (state_of self.old) text.now ≡ Replies reply s
            → ⊥ }
        ensures same { (self.new.h ≡ self.old.h) × (self.new.grammar ≡ self.old.grammar) }
    {
        match self.command(text) {
            Command::Split(k) if k < self.records() => {
                put_reply(reply, self.split(k));
                true
            }
            Command::Collapse(k) if k < self.records() => {
                put_reply(reply, self.collapse(k));
                true
            }
            Command::Look(view) => {
                put_view_reply(reply, self.look(&view));
                true
            }
            Command::Budget(moves) => {
                self.set_budget(moves);
                put_reply(reply, None);
                true
            }
            Command::Mark => {
                self.mark();
                put_reply(reply, None);
                true
            }
            _ => false,
        }
    }

    /// Does one script line, which is given without its LF, as `line` does. The page holds a short
    /// reply, and nothing is put where it has room for that; it is put before any other reply.
    pub(crate) fn line_through<K: Sink>(
        &mut self,
        text: &[u8],
        page: &mut Page,
        out: &mut K,
    ) -> Result<Next, LineFail>
        ensures ends { let s = state_of self.old in
            HeldEnds (line_deed self.old.h self.old.grammar s text.now) result s
            (state_of self.new) (K.got out.old) (K.got out.new) page.old page.new }
        ensures counts { LineCounts result (K.faults out.old) (K.faults out.new) }
        ensures same { (self.new.h ≡ self.old.h) × (self.new.grammar ≡ self.old.grammar) }
        ensures quiet { is_held (command_of self.old.grammar text.now) ≡ true
            → (reply : List ℕ) (s : State)
            → line_deed self.old.h self.old.grammar (state_of self.old) text.now ≡ Replies reply s
            → length page.old + length reply ≤ PAGE_BYTES → out.new ≡ out.old }
    {
        let mut reply = Line::new();
        if self.short_reply(text, &mut reply) {
            return after_reply(page.add(reply.as_slice(), out));
        }
        match page.flush(out) {
            Ok(()) => self.line(text, out),
            Err(_) => Err(LineFail::Write),
        }
    }
}

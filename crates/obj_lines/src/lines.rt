//! The lines of a text that comes in pieces.
ghost use Rattle.std.specs.Prelude.{◌≡◌, ◌+◌, ◌<◌, ◌≤◌, length, true, vec_capacity, IfOk};
ghost use Rattle.obj_lines.specs.declared.limits.TheConstants.{MOST_TEXT_BYTES};
ghost use Rattle.obj_lines.specs.Text.{content};
ghost use Rattle.obj_lines.specs.Feeding.{begun, is_going, is_line, opened, open_line, last_line};
ghost use Rattle.obj_lines.specs.Feeding.{line_state, end_state, fed, fed_state, fed_used};
ghost use Rattle.obj_lines.specs.Feeding.{finished, number};

use crate::OutOfMemory;
use crate::limits::MOST_LINE_BYTES;
use crate::state::{Fed, LineState};
use crate::text::{content_of, is_continued, until};
use std::alloc::Global;
use std::marker::Model;

/// The lines of a text that comes in pieces of any size, one line at a time.
///
/// A line ends with LF, and what follows the last LF is a line if it isn't empty. One CR at a
/// line's end isn't read, nor what stands from its first `#`. Each byte is copied once and looked
/// at a constant number of times, however the text is cut.
#[derive(Drop)]
pub struct Lines {
    text: Vec<u8>,
    // How many bytes of a whole line are read.
    read: usize,
    state: LineState,
    whole: u32,
    taken: u32,
}

impl Model for Lines {
    ghost use Rattle.std.specs.Prelude.{◌≡◌, ◌+◌, ◌≤◌, if◌then◌else◌, true, length, vec_len};
    ghost use Rattle.std.specs.Prelude.{vec_capacity};
    ghost use Rattle.obj_lines.specs.declared.limits.TheConstants.{MOST_LINE_BYTES};
    ghost use Rattle.obj_lines.specs.declared.limits.TheConstants.{MOST_TEXT_BYTES};
    ghost use Rattle.obj_lines.specs.Text.{content};
    ghost use Rattle.obj_lines.specs.Feeding.{Feeding, is_line, is_open};

    ghost Value = { Feeding };

    ghost view = { λ s. record {
      text = s.text.items;
      state = s.state;
      whole = s.whole;
      taken = s.taken;
    } };

    ghost invariant = { λ s. (vec_len s.text ≤ MOST_LINE_BYTES)
        × (MOST_LINE_BYTES ≤ vec_capacity s.text)
        × (s.whole + (if is_open s.state s.text.items then 1 else 0) ≤ s.taken)
        × (s.taken ≤ MOST_TEXT_BYTES)
        × (is_line s.state ≡ true → s.read ≡ length (content s.text.items)) };
}

// Drops a line that is whole: the next one begins.
fn begin(text: &mut Vec<u8>, state: LineState)
    ensures text { text.new.items ≡ opened state text.old.items }
    ensures room { vec_capacity text.new ≡ vec_capacity text.old }
{
    match state {
        LineState::Whole | LineState::Continued => text.clear(),
        LineState::Partial | LineState::TooLong => {}
    }
}

// How many bytes of a whole line are read, and what it is.
fn line_end(text: &[u8]) -> (usize, LineState)
    ensures read { result.0 ≡ length (content text.now) }
    ensures state { result.1 ≡ line_state text.now }
{
    let content = content_of(text);
    let state = if is_continued(content) {
        LineState::Continued
    } else {
        LineState::Whole
    };
    (content.len(), state)
}

impl Lines {
    /// Takes the memory for a line, `MOST_LINE_BYTES` bytes. No later call takes any.
    pub fn new(alloc: Global) -> Result<Lines, OutOfMemory>
        ensures { IfOk result (λ s. s ≡ begun) }
    {
        Ok(Lines {
            text: Vec::with_capacity(alloc, MOST_LINE_BYTES)?,
            read: 0,
            state: LineState::Partial,
            whole: 0,
            taken: 0,
        })
    }

    /// Takes the bytes of a piece up to its first LF, and that LF: what is left of the piece is for
    /// the next call. No call comes after one that answered `TooLong`, and no more than
    /// `MOST_TEXT_BYTES` bytes are fed in all.
    #[tactic(auto, unfolding(crate::specs::Feeding::fed, crate::specs::Feeding::fed_state, crate::specs::Feeding::fed_used))]
    pub fn feed(&mut self, piece: &[u8]) -> Fed
        requires going { is_going self.old.state ≡ true }
        requires room { self.old.taken + length piece.now ≤ MOST_TEXT_BYTES }
        ensures state { result.state ≡ fed_state (open_line self.old) piece.now }
        ensures used { result.used ≡ fed_used (open_line self.old) piece.now }
        ensures within { result.used ≤ length piece.now }
        ensures progress { 0 < length piece.now → 0 < result.used }
        ensures value { self.new ≡ fed self.old piece.now }
    {
        begin(&mut self.text, self.state);
        let front = until(b'\n', piece);
        if front.len() > MOST_LINE_BYTES - self.text.len() {
            let used = MOST_LINE_BYTES + 1 - self.text.len();
            self.state = LineState::TooLong;
            self.taken += used as u32;
            return Fed {
                used,
                state: LineState::TooLong,
            };
        }
        let _ = self.text.extend_from_slice(front);
        if front.len() < piece.len() {
            let used = front.len() + 1;
            (self.read, self.state) = line_end(&self.text);
            self.whole += 1;
            self.taken += used as u32;
            return Fed {
                used,
                state: self.state,
            };
        }
        self.state = LineState::Partial;
        self.taken += piece.len() as u32;
        Fed {
            used: piece.len(),
            state: LineState::Partial,
        }
    }

    /// The end of input: what follows the last LF is a line if it isn't empty. `Partial` says that
    /// there is none.
    #[tactic(auto, unfolding(crate::specs::Feeding::finished, crate::specs::Feeding::end_state))]
    pub fn finish(&mut self) -> LineState
        requires { is_going self.old.state ≡ true }
        ensures state { result ≡ end_state (open_line self.old) }
        ensures value { self.new ≡ finished self.old }
    {
        begin(&mut self.text, self.state);
        if self.text.is_empty() {
            self.state = LineState::Partial;
        } else {
            (self.read, self.state) = line_end(&self.text);
            self.whole += 1;
        }
        self.state
    }

    /// The last whole line without its LF. The last answer was `Whole` or `Continued`.
    pub fn text(&self) -> &[u8]
        requires { is_line self.now.state ≡ true }
        ensures { result.now ≡ self.now.text }
    {
        &self.text
    }

    /// What is read of the last whole line: not its LF, nor one CR at its end, nor a comment. The
    /// last answer was `Whole` or `Continued`.
    #[tactic(auto, using(crate::proofs::TextLaws::content_within, crate::proofs::TextLaws::content_is_front))]
    pub fn line(&self) -> &[u8]
        requires { is_line self.now.state ≡ true }
        ensures { result.now ≡ last_line self.now }
    {
        &self.text[..self.read]
    }

    /// The number, from 1, of the last whole line, or of the open line where bytes follow the last
    /// LF. It is 1 before the first byte.
    #[tactic(auto, unfolding(crate::specs::Feeding::number))]
    pub fn number(&self) -> u32
        ensures { result ≡ number self.now }
    {
        match self.state {
            LineState::TooLong => self.whole + 1,
            LineState::Partial if !self.text.is_empty() => self.whole + 1,
            _ => self.whole.max(1),
        }
    }
}

//! What reads the lines of a text, one after the other.
ghost use Rattle.std.specs.Prelude.{◌≡◌, ◌+◌, ℕ, true, Ok, OnOk, IfErr};
ghost use Rattle.obj_lines.specs.Feeding.{is_line};
ghost use Rattle.obj_lines.specs.Rules.{Rules};
ghost use Rattle.obj_lines.specs.Fails.{IsLineFault};

use crate::fault::{LineFault, TextFail};
use crate::lines::Lines;

/// What takes the whole lines of a text, one after the other, by rules.
pub trait LineReader {
    /// What may be wrong with a line.
    type Fault: Copy + Drop;

    /// What is held between two lines.
    ghost Held: { Type 0 };

    ghost held: { Self → Self.Held };

    /// What a line does to it.
    ghost rules: { Rules Self.Held Self.Fault };

    /// The line with this number may come.
    ghost may_take: { Self → ℕ → Type 0 };

    /// What is wrong with the line of the first byte too many of a text.
    fn too_many(&self) -> Self::Fault
        ensures { result ≡ Self.rules.too_many };

    /// What is wrong with a line of too many bytes.
    fn too_long(&self) -> Self::Fault
        ensures { result ≡ Self.rules.too_long };

    /// Takes the last whole line, which has this number.
    fn take_line(&mut self, lines: &Lines, number: u32) -> Result<(), TextFail<Self::Fault>>
        requires line { is_line lines.now.state ≡ true }
        requires ready { Self.may_take self.old number }
        ensures ok { OnOk result (Self.rules.take number (Self.held self.old) lines.now.text
            ≡ Ok (Self.held self.new)) }
        ensures ready { OnOk result (Self.may_take self.new (number + 1)) }
        ensures fault { IfErr result (λ e.
            IsLineFault e (Self.rules.take number (Self.held self.old) lines.now.text)) };

    /// What is wrong at the end, where the next line would have this number.
    fn end_fault(&self, number: u32) -> Option<LineFault<Self::Fault>>
        requires { Self.may_take self.now number }
        ensures { result ≡ Self.rules.end number (Self.held self.now) };
}

//! The scanner takes the lines of a text: their form, and what is read of them.
ghost use Rattle.obj_scan.specs.Reading.{HeldLines, held_of, scan_rules, IsReadyToScan};

use crate::fault::ScanFault;
use crate::form::{form_fault, line_content};
use crate::scanner::Scanner;
use obj_lines::{LineFault, LineReader, Lines, TextFail};
use obj_read::ObjFault;

impl LineReader for Scanner {
    type Fault = ScanFault;

    ghost Held = { HeldLines };

    ghost held = { held_of };

    ghost rules = { scan_rules };

    ghost may_take = { λ s number. IsReadyToScan (held_of s) number };

    fn too_many(&self) -> ScanFault {
        ScanFault::Line(ObjFault::TooMany)
    }

    fn too_long(&self) -> ScanFault {
        ScanFault::Line(ObjFault::LineTooLong)
    }

    #[tactic(auto, unfolding(crate::specs::Reading::line_taken))]
    fn take_line(&mut self, lines: &Lines, number: u32) -> Result<(), TextFail<ScanFault>> {
        let content = lines.line();
        if let Some(fault) = form_fault(lines.text(), content, number) {
            return Err(TextFail::Fault(LineFault {
                fault,
                line: number,
            }));
        }
        self.take_content(line_content(content, number), number)
    }

    // At the end no line waits for the next one.
    fn end_fault(&self, number: u32) -> Option<LineFault<ScanFault>> {
        if self.continued == 0 {
            None
        } else {
            Some(LineFault {
                fault: ScanFault::Line(ObjFault::Continuation),
                line: number - self.continued,
            })
        }
    }
}

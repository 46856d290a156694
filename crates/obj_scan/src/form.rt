//! The form of a text: how its lines end, and how it begins.
ghost use Rattle.std.specs.Prelude.{◌≡◌, ◌<◌, ℕ, List, true, length};
ghost use Rattle.obj_lines.specs.Text.{content as content_of};
ghost use Rattle.obj_scan.specs.Forms.{has_lone_return, is_marked, without_mark, is_wide};
ghost use Rattle.obj_scan.specs.Forms.{form_fault, line_content};

use crate::fault::ScanFault;
use obj_lines::until;

// Whether a CR stands before another byte.
#[tactic(auto, using(crate::proofs::ReturnLaws::lone_return))]
fn has_lone_return(text: &[u8]) -> bool
    ensures { result ≡ has_lone_return text.now }
{
    until(b'\r', text).len() + 1 < text.len()
}

// Whether a text begins with the byte order mark of UTF-8.
#[tactic(auto, unfolding(crate::specs::Forms::is_marked))]
fn is_marked(text: &[u8]) -> bool
    ensures value { result ≡ is_marked text.now }
    ensures long { result ≡ true → 2 < length text.now }
{
    text.len() > 2 && text[0] == 0xef && text[1] == 0xbb && text[2] == 0xbf
}

// Without the byte order mark of UTF-8 that a text may begin with.
#[tactic(auto, unfolding(crate::specs::Forms::without_mark))]
fn without_mark(text: &[u8]) -> &[u8]
    ensures { result.now ≡ without_mark text.now }
{
    if is_marked(text) { &text[3..] } else { text }
}

// Whether a text begins with the byte order mark of 16 bits a letter.
#[tactic(auto, unfolding(crate::specs::Forms::is_wide))]
fn is_wide(text: &[u8]) -> bool
    ensures { result ≡ is_wide text.now }
{
    text.len() > 1 && (text[0] == 0xff && text[1] == 0xfe || text[0] == 0xfe && text[1] == 0xff)
}

/// What is wrong with the form of a line that has this number, which stands here without its LF,
/// and what is read of it.
#[tactic(auto, unfolding(crate::specs::Forms::form_fault))]
pub fn form_fault(text: &[u8], content: &[u8], number: u32) -> Option<ScanFault>
    requires { content.now ≡ content_of text.now }
    ensures { result ≡ form_fault number text.now }
{
    if number == 1 && is_wide(content) {
        Some(ScanFault::SixteenBits)
    } else if has_lone_return(text) {
        Some(ScanFault::LoneReturn)
    } else {
        None
    }
}

/// What is read of a line that has this number: the first without its byte order mark.
#[tactic(auto, unfolding(crate::specs::Forms::line_content))]
pub fn line_content(content: &[u8], number: u32) -> &[u8]
    ensures { (text : List ℕ) → content.now ≡ content_of text
        → result.now ≡ line_content number text }
{
    if number == 1 {
        without_mark(content)
    } else {
        content
    }
}

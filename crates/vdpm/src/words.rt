//! The words of the command line.
ghost use Rattle.std.specs.Prelude.{◌≡◌, ◌≤◌, map, IfSome};
ghost use Rattle.std.specs.String.{string_bytes};
ghost use Rattle.pm_commands.specs.Asked.{digits_asked, HasSize};
ghost use Rattle.vdpm.specs.Words.{alone, asked_of};

use pm_commands::Asked;
use pm_io::read_unsigned;

// What a word asks for that stands alone.
#[tactic(auto, unfolding(crate::specs::Words::alone))]
fn alone(word: &str) -> Option<Asked>
    ensures asked { result ≡ alone word.now }
    ensures few { IfSome result (λ a. digits_asked a ≤ 4) }
    ensures size { IfSome result HasSize }
{
    if word == "canon" {
        Some(Asked::Canon(0))
    } else if word == "build" {
        Some(Asked::Build(0, 0))
    } else if word == "expand" {
        Some(Asked::Expand)
    } else if word == "check" {
        Some(Asked::Check)
    } else {
        None
    }
}

/// What the words ask for; none where they are none of the forms.
#[tactic(auto, unfolding(crate::specs::Words::asked_of))]
pub fn read_words(words: &[String]) -> Option<Asked>
    ensures asked { result ≡ asked_of (map string_bytes words.now) }
    ensures few { IfSome result (λ a. digits_asked a ≤ 4) }
    ensures size { IfSome result HasSize }
{
    match words {
        [word] => alone(word.as_str()),
        [word, number] => match read_unsigned(number.as_bytes(), u32::MAX) {
            Some(target) if word.as_str() == "build" => Some(Asked::Build(target, 0)),
            Some(budget) if word.as_str() == "view" => Some(Asked::View(budget)),
            Some(budget) if word.as_str() == "live" => Some(Asked::Live(budget)),
            Some(n) if word.as_str() == "demo" && 1 <= n && n <= 256 => Some(Asked::Demo(n)),
            _ => None,
        },
        [word, flag, digits] => match read_unsigned(digits.as_bytes(), 4) {
            Some(digits) if word.as_str() == "canon" && flag.as_str() == "--digits" => {
                Some(Asked::Canon(digits))
            }
            _ => None,
        },
        [word, number, flag, digits] => {
            let target = read_unsigned(number.as_bytes(), u32::MAX)?;
            let digits = read_unsigned(digits.as_bytes(), 4)?;
            if word.as_str() == "build" && flag.as_str() == "--digits" {
                Some(Asked::Build(target, digits))
            } else {
                None
            }
        }
        _ => None,
    }
}

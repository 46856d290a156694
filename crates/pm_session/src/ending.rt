//! What comes of a line.
ghost use Rattle.std.specs.Prelude.{◌≡◌, OnOk, OnErr};

use pm_io::WriteFault;

/// What comes after a line: the next one, or the end of the script.
#[derive(Clone, Copy, Debug, PartialEq, Eq)]
pub enum Next {
    More,
    Quit,
}

/// Why a line isn't done whole: it is none of the forms, it names no record, or its reply couldn't
/// be put.
#[derive(Clone, Copy, Debug, PartialEq, Eq)]
pub enum LineFail {
    BadLine,
    NoRecord,
    Write,
}

/// How the line of a reply ends.
pub(crate) fn after_reply(put: Result<(), WriteFault>) -> Result<Next, LineFail>
    ensures ok { OnOk put (result ≡ Ok Next.More) }
    ensures err { OnErr put (result ≡ Err LineFail.Write) }
{
    match put {
        Ok(()) => Ok(Next::More),
        Err(_) => Err(LineFail::Write),
    }
}

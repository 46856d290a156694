//! The laws of script lines.
ghost use Rattle.pm_session.specs.Laws.{LongLinesAreBad, LiveHasViewLines, LivePlaysViewScripts};

/// The laws of script lines, which take no step. A line of more than 1,024 bytes is none of the
/// forms, so it may be refused as soon as its byte 1,025 is there. A script of `view` without a
/// fault does the same in `live`.
pub fn script_lines_are_sound()
    ensures long { LongLinesAreBad }
    ensures lines { LiveHasViewLines }
    ensures scripts { LivePlaysViewScripts }
{}

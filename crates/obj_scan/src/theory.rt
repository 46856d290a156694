//! The laws of scanned texts.
ghost use Rattle.obj_scan.specs.Laws.{FansLeadBack, ReadIsScanned, CommentedIsScanned};

/// States that a polygon is known by its fan, and the laws of texts that both readers take. It does
/// nothing, and callers cite its clauses.
pub fn scans_are_sound()
    ensures fans { FansLeadBack }
    ensures read { ReadIsScanned }
    ensures commented { CommentedIsScanned }
{}

//! Which views look at clear notes alone.
ghost use Rattle.std.specs.Prelude.{◌≡◌, List};
ghost use Rattle.mxf_klv.specs.Parts.{NoteParts};
ghost use Rattle.mxf_catalogue.specs.Disputes.{clear_notes};
ghost use Rattle.mxf_findings.specs.SameViews.{SameViews};

/// A law of [`Views`](mxf_views::Views), and of what is asked of them here: all views but the gaps and the findings are
/// those of the clear notes.
pub fn views_let_go_of_disputed_notes()
    ensures { (a b : List NoteParts) → clear_notes a ≡ clear_notes b → SameViews a b }
{}

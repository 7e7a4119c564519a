//! What two runs print that were handed the same.
ghost use Rattle.std.specs.Prelude.{◌≡◌, List};
ghost use Rattle.mxf_klv.specs.Parts.{NoteParts};
ghost use Rattle.mxf_catalogue.specs.History.{History, Hands, HandsSame};
ghost use Rattle.mxf_views.specs.Headline.{IsTheRun};
ghost use Rattle.mxf_read.specs.Gathering.{HandedBy};
ghost use Rattle.mxf_read.specs.declared.gathering.part.Part.{Part};
ghost use Rattle.mxf_lines.specs.OneRun.{PrintSame};

use std::io::Read;

/// A law of [`answer`](crate::answer) and of all other calls that print of a content: two runs that were handed the
/// same located packets hold one content, whatever pieces, ranges and saved catalogues these came in and whatever was
/// joined first. So for each question what is printed has in each form the same bytes, and the same status.
///
/// It is said of what [`gather`](mxf_read::gather) gathers from readers of any sort, and of any other calls.
pub fn one_run_one_print<R: Read, S: Read>()
    ensures content { (parts : List (Part R)) (others : List (Part S)) (m n : List NoteParts)
        → IsTheRun (HandedBy R.remaining parts) m → IsTheRun (HandedBy S.remaining others) n
        → HandsSame (HandedBy R.remaining parts) (HandedBy S.remaining others) → m ≡ n }
    ensures print { (parts : List (Part R)) (others : List (Part S)) (m n : List NoteParts)
        → IsTheRun (HandedBy R.remaining parts) m → IsTheRun (HandedBy S.remaining others) n
        → HandsSame (HandedBy R.remaining parts) (HandedBy S.remaining others) → PrintSame m n }
    ensures calls { (h k : History) (m n : List NoteParts) → IsTheRun (Hands h) m → IsTheRun (Hands k) n
        → HandsSame (Hands h) (Hands k) → PrintSame m n }
{}

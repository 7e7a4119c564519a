//! What is asked of views: what is wrong or missing.
ghost use Rattle.std.specs.Prelude.{◌≡◌, IfOk};
ghost use Rattle.mxf_findings.specs.Findings.{findings_of};

use crate::finding::Findings;
use mxf_klv::OutOfMemory;
use mxf_views::Views;
use std::alloc::Global;

/// What the notes of the views show to be wrong or missing, by file offset and then code, none twice. It takes memory.
pub fn findings(alloc: Global, views: &Views) -> Result<Findings, OutOfMemory>
    ensures { IfOk result (λ f. f ≡ findings_of views.now) }
{
    Findings::of(alloc, views)
}

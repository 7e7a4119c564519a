//! Opened sources beside a reference.
ghost use Rattle.std.specs.Prelude.{IfOk, List};
ghost use Rattle.mxf_read.specs.Gathering.{AllTell};
ghost use Rattle.mxf_verify.specs.Sources.{AreSourcesOf};
ghost use Rattle.mxf_verify.specs.Verifications.{IsVerification};
ghost use Rattle.mxf_verify.specs.Verifying.{Source};

use crate::opened::{Opened, ungathered};
use mxf_catalogue::Catalogue;
use mxf_hints::RunFault;
use mxf_saving::LastFault;
use mxf_verify::{Verification, VerifyFault, verify};
use std::alloc::Global;
use std::io::Read;

/// What sources that were opened verify of a reference. They are read in their order.
pub fn verify_opened<'v, 'a, F: Read + Drop>(
    alloc: Global,
    reference: &'v Catalogue,
    opened: Opened<'_, 'a, F>,
    last: &LastFault,
) -> Result<Verification<'v>, RunFault<'a>>
    ensures { AllTell F.remaining opened.entry.parts.items → IfOk result (λ v. (sources : List Source)
        × AreSourcesOf F.remaining opened.entry.parts.items sources × IsVerification reference.now sources v) }
{
    let (sources, parts, _) = opened.into_parts();
    match verify(alloc, reference, parts) {
        Ok(verification) => Ok(verification),
        Err(VerifyFault::OutOfMemory) => Err(RunFault::OutOfMemory),
        Err(VerifyFault::Part(fault)) => Err(ungathered(&fault, sources, last)),
    }
}

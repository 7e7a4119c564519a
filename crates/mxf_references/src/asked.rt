//! What is asked of views: what the sets of the header metadata name.
ghost use Rattle.std.specs.Prelude.{◌≡◌, IfOk};
ghost use Rattle.mxf_references.specs.References.{found_in};
ghost use Rattle.mxf_references.specs.Resolved.{resolved_of};

use crate::reference::resolved::{Resolved, preface_among, resolved_by};
use crate::reference::{Found, find_among};
use mxf_klv::OutOfMemory;
use mxf_views::Views;
use std::alloc::Global;
use uuid::Uuid;

/// What is found of an instance identifier among the sets of the copy of a partition.
pub fn find(views: &Views, partition: u64, uid: Uuid) -> Found
    ensures { result ≡ found_in views.now partition uid }
{
    find_among(views.sets(partition), &uid)
}

/// What the Preface of the preferred copy names; None without such a copy. It takes memory.
pub fn resolved(alloc: Global, views: &Views) -> Result<Option<Resolved>, OutOfMemory>
    ensures { IfOk result (λ r. r ≡ resolved_of views.now) }
{
    let Some(copy) = views.preferred() else {
        return Ok(None);
    };
    let Some(note) = preface_among(views.sets(copy.partition)) else {
        return Ok(None);
    };
    let resolved = resolved_by(alloc, views, copy.partition, note)?;
    Ok(Some(resolved))
}

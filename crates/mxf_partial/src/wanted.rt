//! The bytes that are wanted of edit units.
ghost use Rattle.std.specs.Prelude.{◌≡◌, ◌↔◌, ◌∷◌, [], ℕ, IfOk};
ghost use Rattle.mxf_catalogue.specs.Runs.{LiesIn};
ghost use Rattle.mxf_views.specs.Rises.{RiseBy};
ghost use Rattle.mxf_partial.specs.Gathered.{run_of_extent};
ghost use Rattle.mxf_partial.specs.Wanted.{HasByteBy, reach_of};

use crate::wanted_units::WantedUnits;
use mxf_catalogue::{Cover, Run};
use mxf_klv::{MAX, OutOfMemory};
use mxf_restore::NamedPlace;
use mxf_units::{Extent, Location, cover_of};
use std::alloc::Global;

/// The offsets of the bytes that are wanted, as far as files reach. They take memory.
pub(crate) fn wanted_bytes(
    alloc: Global,
    wanted: &WantedUnits<'_>,
    named: &[NamedPlace],
) -> Result<Cover, OutOfMemory>
    requires { RiseBy (λ n. n.place) named.now }
    ensures { IfOk result (λ c. (x : ℕ) → LiesIn c x ↔ HasByteBy named.now wanted.now wanted.now.bytes x) }
{
    match wanted.bytes() {
        Some(extent) => cover_of(alloc, one_run(alloc, extent)?),
        None => cover_of(alloc, wanted.questions().wanted_runs(alloc, named)?),
    }
}

/// The run of some bytes alone. It takes memory.
fn one_run(alloc: Global, extent: Extent) -> Result<Vec<Run>, OutOfMemory>
    ensures { IfOk result (λ v. v.items ≡ run_of_extent extent ∷ []) }
{
    let mut runs = Vec::new(alloc);
    runs.push(run_of_extent(extent))?;
    Ok(runs)
}

/// Up to where the bytes of a unit may reach: to their end, or otherwise to the limit of its essence zone.
pub(crate) fn reach_of(location: Location) -> Option<u128>
    ensures { result ≡ reach_of location }
{
    location.extent.end.or(location.zone.limit.map(u128::from))
}

/// The run of some bytes, as far as files reach; an empty one if they begin behind that.
pub(crate) fn run_of_extent(extent: Extent) -> Run
    ensures { result ≡ run_of_extent extent }
{
    let most = u128::from(MAX);
    Run {
        start: extent.start.min(most) as u64,
        end: extent.end.unwrap_or(most).min(most) as u64,
    }
}

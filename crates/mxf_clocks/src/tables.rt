//! What is looked up for each clip.
ghost use Rattle.std.specs.Prelude.{IfOk};
ghost use Rattle.mxf_clocks.specs.Lookups.{AreTablesOf};

use crate::file_package::FileIndexes;
use crate::index_rates::IndexRates;
use crate::origins::Origins;
use mxf_klv::OutOfMemory;
use mxf_tracks::PackageAt;
use mxf_views::SegmentInNumbers;
use std::alloc::Global;

/// What segments say of indexes, and packages of their indexes and tracks.
#[derive(Drop)]
pub(crate) struct Tables {
    pub rates: IndexRates,
    pub indexes: FileIndexes,
    pub origins: Origins,
}

impl Tables {
    /// Those of segments and packages. They take memory.
    pub fn of(
        alloc: Global,
        segments: &[SegmentInNumbers],
        packages: &[PackageAt<'_>],
    ) -> Result<Tables, OutOfMemory>
        ensures { IfOk result (AreTablesOf segments.now packages.now) }
    {
        let rates = IndexRates::of(alloc, segments)?;
        let indexes = FileIndexes::of(alloc, packages)?;
        let origins = Origins::of(alloc, packages)?;
        Ok(Tables {
            rates,
            indexes,
            origins,
        })
    }
}

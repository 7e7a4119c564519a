//! The parts that sources name.
ghost use Rattle.std.specs.Prelude.{◌≡◌};
ghost use Rattle.mxf_saving.specs.Sources.{source_parts};
ghost use Rattle.mxf_hints.specs.Parts.{part_of};

use mxf_read::Part;
use mxf_saving::Source;

/// The part that a source names, by a reader of its bytes: a slice is a piece.
pub fn part_of<R>(source: &Source<'_>, from: R) -> Part<R>
    ensures { result ≡ part_of (source_parts source.now) from }
{
    match *source {
        Source::Piece { offset, .. } | Source::Slice { offset, .. } => Part::Piece { offset, from },
        Source::Range { offset, .. } => Part::Range { offset, from },
        Source::Saved { .. } => Part::Saved { from },
    }
}

//! The printed lines.
mod clock;
mod copy;
mod described;
mod essence;
mod index;
mod item;
mod note;
mod partition;
mod piece;
mod record;
mod track;

use super::AnswerFault;
use super::lines::{Each, Line, Lines, Printer, Series, Then};
pub use clock::ClockLine;
pub use copy::PreferredLine;
pub use described::{
    DescribedLine, PackageContainerLine, PackageLine, PackagesLine, TargetLine, Within,
    write_word_or,
};
pub use essence::{EssenceLine, PictureLine, SoundLine};
pub use item::ItemLine;
use mxf_forms::{FieldWriter, HexDigits};
pub use note::{NoteLines, write_note_fields};
pub use partition::PartitionLines;
pub use piece::{JoinLine, source_of, write_stop};
pub use record::{
    IdentificationLines, Named, Owner, PackageLines, Property, TextLines, ValueLines,
};
use std::alloc::AllocError;
use std::io::Write;
pub use track::{ClipLine, ComponentLine, FillerLine, TimecodeLine, TrackLine};

//! Tracks: what the header metadata of the preferred copy say of a recording, from its packages down to the components
//! of its tracks.
//!
//! Offsets are bytes from the first byte of the header partition pack. Positions and durations are edit units of the
//! track that they stand in.
//!
//! [`Timecode`] labels the frames of a day, and [`Length`] says how long a duration lasts.
#![tactic(auto)]

mod component;
mod container;
mod descriptor;
mod digits;
mod keys;
pub mod laws;
mod length;
mod package;
mod reached;
mod sequence;
mod target;
mod timecode;
mod track;

pub use component::{Component, Components, Part};
pub use container::Container;
pub use descriptor::{DescriptorAt, FoundDescriptor, SubdescriptorAt, Subdescriptors};
pub use length::Length;
pub use package::{FoundPackage, PackageAt, PackageKind, Tracks, preferred_tracks};
pub use sequence::{FoundSequence, SequenceAt, SequenceKind};
pub use target::Target;
pub use timecode::{Timecode, labels_of_day};
pub use track::{FoundTrack, TrackAt, TracksOf};

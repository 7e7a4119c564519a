//! Sequences.
ghost use Rattle.std.specs.Prelude.{◌≡◌, IfOk};
ghost use Rattle.mxf_views.specs.Copies.{sets_of};
ghost use Rattle.mxf_tracks.specs.Walk.{found_sequence, sequence_in, sequence_of};

use crate::component::{Components, components_of};
use crate::keys::sequence_kind;
use crate::reached::Reached;
use crate::target::{Target, Wanted, set_of};
use mxf_klv::{Note, OutOfMemory};
use mxf_references::CopySets;
use mxf_sets::Sequence;
use std::alloc::Global;
use uuid::Uuid;

/// What a sequence holds, by its data definition (RP 224, ST 400).
#[derive(Clone, Copy, Debug, PartialEq, Eq)]
pub enum SequenceKind {
    Picture,
    Sound,
    Data,
    Timecode,
    /// Descriptive metadata.
    Descriptive,
    /// Anything else, by its label.
    Other([u8; 16]),
}

/// A sequence that was found.
#[derive(Debug, Drop)]
pub struct FoundSequence {
    pub kind: SequenceKind,
    /// The duration in edit units of the track, if it is known.
    pub duration: Option<u64>,
    pub components: Components,
}

/// The reference of a track to its sequence, and the sequence.
#[derive(Debug, Drop)]
pub struct SequenceAt {
    /// The instance identifier that the reference names.
    pub uid: Uuid,
    pub target: Target,
    /// None unless the target is found.
    pub found: Option<FoundSequence>,
}

/// What the set of a sequence is read as.
#[tactic(auto, unfolding(crate::specs::Walk::sequence_in))]
fn sequence_in(note: &Note) -> Option<Sequence<'_>>
    ensures { result ≡ sequence_in note.now }
{
    Sequence::read(note.value()?).ok()
}

/// The sequence with the components that it leads to.
fn found_sequence(
    alloc: Global,
    copy: &CopySets<'_>,
    reached: &mut Reached,
    sequence: &Sequence<'_>,
) -> Result<FoundSequence, OutOfMemory>
    ensures { IfOk result (λ s. (s, reached.new)
        ≡ found_sequence (sets_of copy.now.notes copy.now.partition) reached.old sequence.now) }
{
    Ok(FoundSequence {
        kind: sequence_kind(&sequence.data_definition()),
        duration: sequence.duration(),
        components: components_of(alloc, copy, reached, sequence.components())?,
    })
}

/// The sequence that a reference leads to.
#[tactic(auto, unfolding(crate::specs::Walk::sequence_of))]
pub(crate) fn sequence_of(
    alloc: Global,
    copy: &CopySets<'_>,
    reached: &mut Reached,
    uid: &Uuid,
) -> Result<SequenceAt, OutOfMemory>
    ensures { IfOk result (λ s. (s, reached.new)
        ≡ sequence_of (sets_of copy.now.notes copy.now.partition) reached.old uid.now) }
{
    let note = match set_of(copy, Wanted::Sequence, reached, uid) {
        Ok(note) => note,
        Err(target) => {
            return Ok(SequenceAt {
                uid: *uid,
                target,
                found: None,
            });
        }
    };
    let offset = note.offset();
    reached.add(offset)?;
    let Some(sequence) = sequence_in(note) else {
        return Ok(SequenceAt {
            uid: *uid,
            target: Target::Unreadable(offset),
            found: None,
        });
    };
    let found = found_sequence(alloc, copy, reached, &sequence)?;
    Ok(SequenceAt {
        uid: *uid,
        target: Target::Found(offset),
        found: Some(found),
    })
}

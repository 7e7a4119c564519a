//! The components of sequences.
ghost use Rattle.std.specs.Prelude.{◌≡◌, ◌+◌, ◌^◌, ◌<◌, Some, IfOk, IfSome};
ghost use Rattle.mxf_views.specs.Copies.{sets_of};
ghost use Rattle.mxf_tracks.specs.Walk.{component_of, components_from, duration_of, end_of_part, part_in, clip_in};
ghost use Rattle.mxf_tracks.specs.Walk.{filler_in, timecode_in};

use crate::keys::{is_clip, is_timecode};
use crate::reached::Reached;
use crate::target::{Target, Wanted, set_of};
use mxf_klv::{Note, OutOfMemory};
use mxf_references::CopySets;
use mxf_sets::{Filler, References, SourceClip, TimecodeComponent};
use std::alloc::Global;
use std::marker::Model;
use uuid::Uuid;

/// What a component is.
#[derive(Debug, Drop)]
pub enum Part {
    Clip(SourceClip),
    Timecode(TimecodeComponent),
    Filler(Filler),
}

/// A reference of a sequence, and the component that it leads to.
#[derive(Debug, Drop)]
pub struct Component {
    /// The instance identifier that the reference names.
    pub uid: Uuid,
    pub target: Target,
    /// Where the component begins, in edit units from the start of the sequence. None if it isn't known: behind a
    /// component that isn't found, or whose duration isn't known.
    pub start: Option<u128>,
    /// None unless the target is found.
    pub part: Option<Part>,
}

/// References of a sequence with the components that they lead to, in order.
#[derive(Debug, Drop)]
pub struct Components {
    items: Vec<Component>,
}

impl Model for Components {
    ghost use Rattle.std.specs.Prelude.{List};
    ghost use Rattle.mxf_tracks.specs.declared.component.Component.{Component};

    ghost Value = { List Component };

    ghost view = { λ c. c.items.items };
}

impl Components {
    /// The components.
    pub fn as_slice(&self) -> &[Component]
        ensures { result.now ≡ self.now }
    {
        self.items.as_slice()
    }
}

impl Part {
    /// The duration in edit units, if it is known.
    pub fn duration(&self) -> Option<u64>
        ensures { result ≡ duration_of self.now }
    {
        match self {
            Part::Clip(clip) => clip.duration(),
            Part::Timecode(timecode) => timecode.duration(),
            Part::Filler(filler) => filler.duration(),
        }
    }
}

#[tactic(auto, unfolding(crate::specs::Walk::clip_in))]
fn clip_in(note: &Note) -> Option<SourceClip>
    ensures { result ≡ clip_in note.now }
{
    SourceClip::read(note.value()?).ok()
}

#[tactic(auto, unfolding(crate::specs::Walk::timecode_in))]
fn timecode_in(note: &Note) -> Option<TimecodeComponent>
    ensures { result ≡ timecode_in note.now }
{
    TimecodeComponent::read(note.value()?).ok()
}

#[tactic(auto, unfolding(crate::specs::Walk::filler_in))]
fn filler_in(note: &Note) -> Option<Filler>
    ensures { result ≡ filler_in note.now }
{
    Filler::read(note.value()?).ok()
}

/// What the set of a component is read as, by its key.
#[tactic(auto, unfolding(crate::specs::Walk::part_in))]
fn part_in(note: &Note) -> Option<Part>
    ensures { result ≡ part_in note.now }
{
    let key = note.key();
    if is_clip(&key) {
        return Some(Part::Clip(clip_in(note)?));
    }
    if is_timecode(&key) {
        return Some(Part::Timecode(timecode_in(note)?));
    }
    Some(Part::Filler(filler_in(note)?))
}

/// The component that a reference leads to.
#[tactic(auto, unfolding(crate::specs::Walk::component_of))]
fn component_of(
    copy: &CopySets<'_>,
    start: Option<u128>,
    reached: &mut Reached,
    uid: &Uuid,
) -> Result<Component, OutOfMemory>
    ensures { IfOk result (λ c. (c, reached.new)
        ≡ component_of (sets_of copy.now.notes copy.now.partition) start reached.old uid.now) }
{
    let note = match set_of(copy, Wanted::Component, reached, uid) {
        Ok(note) => note,
        Err(target) => {
            return Ok(Component {
                uid: *uid,
                target,
                start,
                part: None,
            });
        }
    };
    let offset = note.offset();
    reached.add(offset)?;
    let part = part_in(note);
    let target = match part {
        Some(_) => Target::Found(offset),
        None => Target::Unreadable(offset),
    };
    Ok(Component {
        uid: *uid,
        target,
        start,
        part,
    })
}

/// Where a component ends, in edit units from the start of the sequence, if it is known.
fn end_of(component: &Component) -> Option<u128>
    requires { IfSome component.now.start (λ s. s < 2 ^ 127) }
    ensures end { result ≡ end_of_part component.now.start component.now.part }
    ensures bound { IfSome component.now.start (λ s. IfSome result (λ e. e < s + 2 ^ 64)) }
{
    let start = component.start?;
    let duration = component.part.as_ref()?.duration()?;
    Some(start + u128::from(duration))
}

/// The components that references lead to, in order.
pub(crate) fn components_of(
    alloc: Global,
    copy: &CopySets<'_>,
    reached: &mut Reached,
    references: References<'_>,
) -> Result<Components, OutOfMemory>
    ensures { IfOk result (λ c. (c, reached.new)
        ≡ components_from (sets_of copy.now.notes copy.now.partition) (Some 0) reached.old references.entry) }
{
    let mut items = Vec::new(alloc);
    let mut start = Some(0);
    for uid in references {
        let component = component_of(copy, start, reached, &uid)?;
        start = end_of(&component);
        items.push(component)?;
    }
    Ok(Components { items })
}

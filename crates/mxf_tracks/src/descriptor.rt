//! Descriptors.
ghost use Rattle.std.specs.Prelude.{◌≡◌, IfOk};
ghost use Rattle.mxf_views.specs.Copies.{sets_of};
ghost use Rattle.mxf_tracks.specs.Walk.{descriptor_in, descriptor_named, descriptor_of, subdescriptor_of};
ghost use Rattle.mxf_tracks.specs.Walk.{subdescriptors_from};

use crate::reached::Reached;
use crate::target::{Target, Wanted, set_of};
use mxf_klv::{Note, OutOfMemory};
use mxf_references::CopySets;
use mxf_sets::{Descriptor, References};
use std::alloc::Global;
use std::marker::Model;
use uuid::Uuid;

/// A reference of a descriptor, and the descriptor of a part that it leads to.
#[derive(Drop)]
pub struct SubdescriptorAt<'a> {
    /// The instance identifier that the reference names.
    pub uid: Uuid,
    pub target: Target,
    /// None unless the target is found.
    pub found: Option<Descriptor<'a>>,
}

/// References of a descriptor with the descriptors of parts that they lead to, in order.
#[derive(Drop)]
pub struct Subdescriptors<'a> {
    items: Vec<SubdescriptorAt<'a>>,
}

impl<'a> Model for Subdescriptors<'a> {
    ghost use Rattle.std.specs.Prelude.{List};
    ghost use Rattle.mxf_tracks.specs.declared.descriptor.SubdescriptorAt.{SubdescriptorAt};

    ghost Value = { List SubdescriptorAt };

    ghost view = { λ s. s.items.items };
}

impl<'a> Subdescriptors<'a> {
    /// The descriptors of parts.
    pub fn as_slice(&self) -> &[SubdescriptorAt<'a>]
        ensures { result.now ≡ self.now }
    {
        self.items.as_slice()
    }
}

/// A descriptor that was found.
#[derive(Drop)]
pub struct FoundDescriptor<'a> {
    /// Its record.
    pub descriptor: Descriptor<'a>,
    pub subdescriptors: Subdescriptors<'a>,
}

/// The reference of a package to its descriptor, and the descriptor.
#[derive(Drop)]
pub struct DescriptorAt<'a> {
    /// The instance identifier that the reference names.
    pub uid: Uuid,
    pub target: Target,
    /// None unless the target is found.
    pub found: Option<FoundDescriptor<'a>>,
}

/// What a set is read as where a descriptor is named.
#[tactic(auto, unfolding(crate::specs::Walk::descriptor_in))]
fn descriptor_in(note: &Note) -> Option<Descriptor<'_>>
    ensures { result ≡ descriptor_in note.now }
{
    Descriptor::read(note.value()?).ok()
}

/// The descriptor of a part that a reference leads to.
#[tactic(auto, unfolding(crate::specs::Walk::subdescriptor_of))]
fn subdescriptor_of<'a>(
    copy: &CopySets<'a>,
    reached: &mut Reached,
    uid: &Uuid,
) -> Result<SubdescriptorAt<'a>, OutOfMemory>
    ensures { IfOk result (λ d. (d, reached.new)
        ≡ subdescriptor_of (sets_of copy.now.notes copy.now.partition) reached.old uid.now) }
{
    let note = match set_of(copy, Wanted::Descriptor, reached, uid) {
        Ok(note) => note,
        Err(target) => {
            return Ok(SubdescriptorAt {
                uid: *uid,
                target,
                found: None,
            });
        }
    };
    let offset = note.offset();
    reached.add(offset)?;
    let found = descriptor_in(note);
    let target = match found {
        Some(_) => Target::Found(offset),
        None => Target::Unreadable(offset),
    };
    Ok(SubdescriptorAt {
        uid: *uid,
        target,
        found,
    })
}

/// The descriptors of parts that references lead to, in order.
fn subdescriptors_of<'a>(
    alloc: Global,
    copy: &CopySets<'a>,
    reached: &mut Reached,
    references: References<'_>,
) -> Result<Subdescriptors<'a>, OutOfMemory>
    ensures { IfOk result (λ d. (d, reached.new)
        ≡ subdescriptors_from (sets_of copy.now.notes copy.now.partition) reached.old references.entry) }
{
    let mut items = Vec::new(alloc);
    for uid in references {
        items.push(subdescriptor_of(copy, reached, &uid)?)?;
    }
    Ok(Subdescriptors { items })
}

/// The descriptor that a reference leads to.
#[tactic(auto, unfolding(crate::specs::Walk::descriptor_of))]
fn descriptor_of<'a>(
    alloc: Global,
    copy: &CopySets<'a>,
    reached: &mut Reached,
    uid: &Uuid,
) -> Result<DescriptorAt<'a>, OutOfMemory>
    ensures { IfOk result (λ d. (d, reached.new)
        ≡ descriptor_of (sets_of copy.now.notes copy.now.partition) reached.old uid.now) }
{
    let note = match set_of(copy, Wanted::Descriptor, reached, uid) {
        Ok(note) => note,
        Err(target) => {
            return Ok(DescriptorAt {
                uid: *uid,
                target,
                found: None,
            });
        }
    };
    let offset = note.offset();
    reached.add(offset)?;
    let Some(descriptor) = descriptor_in(note) else {
        return Ok(DescriptorAt {
            uid: *uid,
            target: Target::Unreadable(offset),
            found: None,
        });
    };
    let subdescriptors = subdescriptors_of(alloc, copy, reached, descriptor.subdescriptors())?;
    Ok(DescriptorAt {
        uid: *uid,
        target: Target::Found(offset),
        found: Some(FoundDescriptor {
            descriptor,
            subdescriptors,
        }),
    })
}

/// The descriptor that a package names, if it names one.
pub(crate) fn descriptor_named<'a>(
    alloc: Global,
    copy: &CopySets<'a>,
    reached: &mut Reached,
    uid: Option<Uuid>,
) -> Result<Option<DescriptorAt<'a>>, OutOfMemory>
    ensures { IfOk result (λ d. (d, reached.new)
        ≡ descriptor_named (sets_of copy.now.notes copy.now.partition) reached.old uid) }
{
    let Some(uid) = uid else {
        return Ok(None);
    };
    Ok(Some(descriptor_of(alloc, copy, reached, &uid)?))
}

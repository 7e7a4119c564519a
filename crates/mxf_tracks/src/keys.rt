//! The keys of the sets that are read as records of tracks (ST 377-1), and the labels of what sequences hold.
ghost use Rattle.std.specs.Prelude.{◌≡◌, false, true};
ghost use Rattle.mxf_tracks.specs.Keys.{is_clip, is_container_data, is_definition, is_filler, is_sequence, is_set_key};
ghost use Rattle.mxf_tracks.specs.Keys.{essence_item, fits, is_timecode, is_track, sequence_kind, timecode_item};
ghost use Rattle.mxf_tracks.specs.Registered.{data_definition, set_key};
ghost use Rattle.mxf_tracks.specs.declared.sequence.SequenceKind.TheVariants as kinds;
ghost use Rattle.mxf_tracks.specs.declared.target.Wanted.TheVariants as wanted;

use crate::sequence::SequenceKind;
use mxf_klv::Ul;

/// Whether the key is that of a header metadata set, of which byte 15 says which it is. The version, byte 8, decides
/// nothing.
fn is_set_key(which: u8, key: &Ul) -> bool
    ensures { result ≡ is_set_key which key.now }
{
    let key = key.bytes();
    key[4..7] == [0x02, 0x53, 0x01] && key[8..] == [0x0D, 0x01, 0x01, 0x01, 0x01, 0x01, which, 0x00]
}

pub(crate) fn is_track(key: &Ul) -> bool
    ensures { result ≡ is_track key.now }
{
    is_set_key(0x3B, key)
}

pub(crate) fn is_sequence(key: &Ul) -> bool
    ensures { result ≡ is_sequence key.now }
{
    is_set_key(0x0F, key)
}

pub(crate) fn is_clip(key: &Ul) -> bool
    ensures { result ≡ is_clip key.now }
{
    is_set_key(0x11, key)
}

pub(crate) fn is_timecode(key: &Ul) -> bool
    ensures { result ≡ is_timecode key.now }
{
    is_set_key(0x14, key)
}

pub(crate) fn is_filler(key: &Ul) -> bool
    ensures { result ≡ is_filler key.now }
{
    is_set_key(0x09, key)
}

pub(crate) fn is_container_data(key: &Ul) -> bool
    ensures { result ≡ is_container_data key.now }
{
    is_set_key(0x23, key)
}

/// Bytes 1 to 7 of the label of a data definition.
const DEFINITION_START: [u8; 7] = [0x06, 0x0E, 0x2B, 0x34, 0x04, 0x01, 0x01];

/// Whether the label is that of a data definition with these bytes 9 to 16.
fn is_definition(item: &[u8; 8], label: &[u8; 16]) -> bool
    ensures { result ≡ is_definition item.now label.now }
{
    label[..7] == DEFINITION_START[..] && label[8..] == item[..]
}

/// Whether it is that of essence, of which byte 13 says which it is.
fn is_essence(which: u8, label: &[u8; 16]) -> bool
    ensures { result ≡ is_definition (essence_item which) label.now }
{
    is_definition(&[0x01, 0x03, 0x02, 0x02, which, 0x00, 0x00, 0x00], label)
}

/// Whether it is that of a timecode, of which byte 13 says by which standard.
fn is_timecode_definition(which: u8, label: &[u8; 16]) -> bool
    ensures { result ≡ is_definition (timecode_item which) label.now }
{
    is_definition(&[0x01, 0x03, 0x02, 0x01, which, 0x00, 0x00, 0x00], label)
}

/// What a sequence of this data definition holds.
pub(crate) fn sequence_kind(label: &[u8; 16]) -> SequenceKind
    ensures { result ≡ sequence_kind label.now }
{
    if is_essence(0x01, label) {
        return SequenceKind::Picture;
    }
    if is_essence(0x02, label) {
        return SequenceKind::Sound;
    }
    if is_essence(0x03, label) {
        return SequenceKind::Data;
    }
    if is_timecode_definition(0x01, label)
        || is_timecode_definition(0x02, label)
        || is_timecode_definition(0x03, label)
    {
        return SequenceKind::Timecode;
    }
    if label[..7] == DEFINITION_START[..] && label[8..13] == [0x01, 0x03, 0x02, 0x01, 0x10] {
        return SequenceKind::Descriptive;
    }
    SequenceKind::Other(*label)
}

/// A law of what sequences hold: their registered labels are those of picture, sound and data, of the timecodes of three
/// standards, and of descriptive metadata. A label of another number of these families is told as it is.
pub fn labels_have_these_kinds()
    ensures picture { sequence_kind (data_definition 0x02 0x01) ≡ kinds.Picture }
    ensures sound { sequence_kind (data_definition 0x02 0x02) ≡ kinds.Sound }
    ensures data_essence { sequence_kind (data_definition 0x02 0x03) ≡ kinds.Data }
    ensures timecodes { (sequence_kind (data_definition 0x01 0x01) ≡ kinds.Timecode)
        × (sequence_kind (data_definition 0x01 0x02) ≡ kinds.Timecode)
        × (sequence_kind (data_definition 0x01 0x03) ≡ kinds.Timecode) }
    ensures descriptive { sequence_kind (data_definition 0x01 0x10) ≡ kinds.Descriptive }
    ensures others { (sequence_kind (data_definition 0x02 0x04) ≡ kinds.Other (data_definition 0x02 0x04))
        × (sequence_kind (data_definition 0x01 0x04) ≡ kinds.Other (data_definition 0x01 0x04))
        × (sequence_kind (data_definition 0x01 0x11) ≡ kinds.Other (data_definition 0x01 0x11)) }
{}

/// A law of which sets the registered keys are of. Neither an Event Track (39) nor a Static Track (3A) is followed as a
/// track, and no descriptive metadata segment (41) as a component.
pub fn keys_are_of_these_sets()
    ensures filler { is_filler (set_key 0x09) ≡ true }
    ensures sequence { is_sequence (set_key 0x0F) ≡ true }
    ensures clip { is_clip (set_key 0x11) ≡ true }
    ensures timecode { is_timecode (set_key 0x14) ≡ true }
    ensures container_data { is_container_data (set_key 0x23) ≡ true }
    ensures track { is_track (set_key 0x3B) ≡ true }
    ensures components { (fits wanted.Component (set_key 0x09) ≡ true) × (fits wanted.Component (set_key 0x11) ≡ true)
        × (fits wanted.Component (set_key 0x14) ≡ true) × (fits wanted.Component (set_key 0x0F) ≡ false)
        × (fits wanted.Component (set_key 0x41) ≡ false) }
    ensures tracks { (fits wanted.Track (set_key 0x39) ≡ false) × (fits wanted.Track (set_key 0x3A) ≡ false)
        × (fits wanted.Sequence (set_key 0x11) ≡ false) }
{}

//! The random index pack, and how its entries stand to the partitions (ST 377-1, Random Index Pack).
ghost use Rattle.std.specs.Prelude.{◌≡◌, ◌<◌, ◌^◌, ◌↔◌, IfSome, List, length, map};
ghost use Rattle.mxf_klv.specs.Parts.{NoteParts};
ghost use Rattle.mxf_sets.specs.declared.pack.random_index.RipEntry.{RipEntry};
ghost use Rattle.mxf_catalogue.specs.Content.{IsContent};
ghost use Rattle.std.specs.Iterator.{YieldsFirst, YieldsFirstRef, item_count};
ghost use Rattle.mxf_views.specs.Partitions.{partitions_of};
ghost use Rattle.mxf_views.specs.declared.random_index.Standing.{Standing};
ghost use Rattle.mxf_views.specs.declared.random_index.RipView.{RipView};
ghost use Rattle.mxf_views.specs.Rises.{RiseBy};
ghost use Rattle.mxf_views.specs.RandomIndexView.{IsRipView, rip_view_of};
ghost use Rattle.mxf_views.specs.RandomIndex.{IsStanding, is_rip_note, rip_in, standing_of};

use crate::kept::keyed::find_by_key;
use crate::partition::Partition;
use crate::placed::NotesAt;
use mxf_klv::{Kind, Note};
use mxf_sets::{Rip, RipEntries, RipEntry};
use std::fmt;
use std::marker::Model;

/// How an entry of a random index pack stands to the partitions.
///
/// The entry promises a partition with its BodySID at its offset: it is there, another one stands there, or none is
/// held there, which makes the offset one to restore.
#[derive(Clone, Copy, Debug, PartialEq, Eq)]
pub enum Standing {
    /// A partition at the entry's offset has its BodySID.
    Held,
    /// The partition at the entry's offset has another BodySID.
    Differs,
    /// No partition stands at the entry's offset.
    Missing,
}

/// The word for the standing, as in `differs`.
impl fmt::Display for Standing {
    ghost use Rattle.std.specs.Prelude.{Some};
    ghost use Rattle.mxf_views.specs.Words.{standing_name};

    ghost output = { λ standing. Some (standing_name standing) };

    fn fmt<W: fmt::Write>(&self, f: &mut fmt::Formatter<W>) -> fmt::Result {
        f.write_str(match *self {
            Standing::Held => "held",
            Standing::Differs => "differs",
            Standing::Missing => "missing",
        })
    }
}

/// What is known of the random index pack, by those that share no byte with another packet (ST 377-1, random index
/// pack).
///
/// The last packet of a file can list all partitions with their offsets, so that a reader finds each without following
/// the links. A file has one at most: if two are held, one is of another reading, and neither is relied on.
#[derive(Debug, Drop)]
pub enum RipView<'a> {
    /// There is none.
    Absent,
    /// There is more than one.
    Several,
    /// The only one, at this file offset in bytes, can't be read.
    Unreadable(u64),
    /// The only one can be read.
    One(RipAt<'a>),
}

/// A readable random index pack and where it stands.
#[derive(Debug, Drop)]
pub struct RipAt<'a> {
    offset: u64,
    rip: Rip<'a>,
    partitions: &'a [Partition],
}

impl<'a> Model for RipAt<'a> {
    ghost use Rattle.std.specs.Prelude.{◌<◌, ◌^◌, length};
    ghost use Rattle.mxf_views.specs.Rises.{RiseBy};
    ghost use Rattle.mxf_views.specs.RandomIndex.{RipAtParts, standings_among};

    ghost Value = { RipAtParts };

    ghost view = { λ r. record { offset = r.offset; entries = standings_among r.partitions.now r.rip.entries } };

    ghost invariant = { λ r. (length r.rip.entries < 2 ^ 64) × RiseBy (λ p. p.offset) r.partitions.now };
}

impl<'a> RipAt<'a> {
    /// The file offset where the pack's packet begins, in bytes.
    pub fn offset(&self) -> u64
        ensures { result ≡ self.now.offset }
    {
        self.offset
    }

    /// The entries in the order of the pack, each with how it stands to the partitions.
    pub fn entries(&self) -> Standings<'a>
        ensures entries { result ≡ self.now.entries }

        // A count of the result fits.
        ensures bound { length result < 2 ^ 64 }
    {
        Standings {
            entries: self.rip.entries(),
            partitions: self.partitions,
        }
    }

    /// The entries in the order of the pack, by themselves.
    pub fn listed(&self) -> RipEntries<'a>
        ensures entries { result ≡ map (λ e. e.0) self.now.entries }

        // A count of the result fits.
        ensures bound { length result < 2 ^ 64 }
    {
        self.rip.entries()
    }
}

/// The entries that are left, with their standings, in the order of the pack.
#[derive(Drop)]
pub struct Standings<'a> {
    entries: RipEntries<'a>,
    partitions: &'a [Partition],
}

impl<'a> Model for Standings<'a> {
    ghost use Rattle.std.specs.Prelude.{List};
    ghost use Rattle.mxf_sets.specs.declared.pack.random_index.RipEntry.{RipEntry};
    ghost use Rattle.mxf_views.specs.declared.random_index.Standing.{Standing};
    ghost use Rattle.mxf_views.specs.Rises.{RiseBy};
    ghost use Rattle.mxf_views.specs.RandomIndex.{standings_among};

    ghost Value = { List (RipEntry × Standing) };

    ghost view = { λ s. standings_among s.partitions.now s.entries };

    ghost invariant = { λ s. RiseBy (λ p. p.offset) s.partitions.now };
}

impl<'a> Iterator for Standings<'a> {
    type Item = (RipEntry, Standing);

    ghost next_gives = { YieldsFirst (λ s. s) };

    ghost remaining = { item_count (λ s. s) };

    fn next(&mut self) -> Option<(RipEntry, Standing)> {
        let entry = self.entries.next()?;
        Some((entry, standing_among(self.partitions, &entry)))
    }
}

/// How an entry stands to partitions.
fn standing_among(partitions: &[Partition], entry: &RipEntry) -> Standing
    requires { RiseBy (λ p. p.offset) partitions.now }
    ensures { result ≡ standing_of partitions.now entry.now }
{
    match find_by_key(partitions, entry.offset) {
        Some(partition) if partition.numbers.body_sid == entry.body_sid => Standing::Held,
        Some(_) => Standing::Differs,
        None => Standing::Missing,
    }
}

/// Whether the packet has a random index pack.
#[tactic(auto, unfolding(crate::specs::RandomIndex::is_rip_note))]
pub fn is_rip(note: &Note) -> bool
    ensures { result ≡ is_rip_note note.now }
{
    note.kind() == Kind::Rip
}

/// The random index pack that the value of a note is, if it is kept and is one.
pub fn read_rip(note: &Note) -> Option<Rip<'_>>
    ensures rip { result ≡ rip_in note.now }
    ensures bound { IfSome result (λ rip. length rip.entries < 2 ^ 64) }
{
    Rip::read(note.width(), note.value()?).ok()
}

impl<'a> RipView<'a> {
    ghost use Rattle.mxf_views.specs.RandomIndexView.{rip_view_among};

    /// What is known of the random index pack, by the clear ones, of a file with these partitions.
    pub(crate) fn of(mut rips: NotesAt<'a, u64>, partitions: &'a [Partition]) -> RipView<'a>
        requires { RiseBy (λ p. p.offset) partitions.now }
        ensures { result ≡ rip_view_among partitions.now rips.entry }
    {
        let Some(note) = rips.next() else {
            return RipView::Absent;
        };
        if rips.next().is_some() {
            return RipView::Several;
        }
        let offset = note.offset();
        match read_rip(note) {
            Some(rip) => RipView::One(RipAt {
                offset,
                rip,
                partitions,
            }),
            None => RipView::Unreadable(offset),
        }
    }
}

/// A law of [`RipAt::entries`]: how an entry stands is determined by the partition at its offset.
pub fn standings_by_definition()
    ensures { (notes : List NoteParts) (entry : RipEntry) (standing : Standing) → IsContent notes
        → (standing_of (partitions_of notes) entry ≡ standing) ↔ IsStanding (partitions_of notes) entry standing }
{}

/// A law of [`Views::rip`](crate::Views::rip): what is known is determined by the number of the clear random index
/// packs, and by whether the only one can be read.
pub fn rip_views_by_definition()
    ensures { (notes : List NoteParts) (view : RipView) → IsContent notes
        → (rip_view_of notes ≡ view) ↔ IsRipView notes view }
{}

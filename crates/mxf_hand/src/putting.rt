//! Putting packets together, round after round.
ghost use Rattle.std.specs.Prelude.{◌≡◌, ◌⊎◌, ℕ, List, IfOk, OnOk, true};
ghost use Rattle.mxf_klv.specs.Parts.{NoteParts};
ghost use Rattle.mxf_klv.specs.Rising.{In};
ghost use Rattle.mxf_catalogue.specs.Content.{has_note, reduced_union};
ghost use Rattle.mxf_hand.specs.Given.{AreTold, SourceParts};
ghost use Rattle.mxf_hand.specs.Barren.{AreBarren};
ghost use Rattle.mxf_hand.specs.Finding.{Finds};
ghost use Rattle.mxf_hand.specs.Hand.{AreOf, AreToldIn, HandBytes};
ghost use Rattle.mxf_hand.specs.Rounds.{made_in, packets_in, put_together, read_heads_in, round};
ghost use Rattle.mxf_restore.specs.Sections.{sections_of};
ghost use Rattle.mxf_skim.specs.declared.scan.Scan.TheVariants.{Full};

use crate::barren::BarrenReadings;
use crate::found::Found;
use crate::given::{Given, SourceFault, Sources};
use crate::hand::Hand;
use crate::section::add_section;
use mxf_catalogue::Catalogue;
use mxf_klv::OutOfMemory;
use mxf_places::{AtHand, Heads, Holdings, claims};
use mxf_restore::{Section, sections};
use mxf_skim::Scan;
use mxf_views::Views;
use std::alloc::Global;

/// The greatest number of rounds.
const GREATEST_ROUNDS: u32 = 64;

/// What a run holds after packets were put together, and which bytes are at hand.
#[derive(Drop)]
pub struct PutTogether {
    pub views: Views,
    pub at_hand: AtHand,
}

/// The sections of the holes of what is held. They take memory.
fn sections_in(alloc: Global, views: &Views) -> Result<Vec<Section>, SourceFault>
    ensures { IfOk result (λ v. v.items ≡ sections_of views.now) }
{
    let holdings = Holdings::of(alloc, views)?;
    let claims = claims(alloc, &holdings)?;
    Ok(sections(alloc, &holdings, &claims)?)
}

/// What is found of the sections of the holes of what is held.
fn found_in<S: Sources>(
    alloc: Global,
    hand: &Hand,
    sources: &mut S,
    barren: &mut BarrenReadings,
    views: &Views,
) -> Result<Found, SourceFault>
    ensures told { S.told sources.new ≡ S.told sources.old }
    ensures found { (h : HandBytes)
        → AreToldIn (S.told sources.old) hand.now.given.extents hand.now.runs hand.now.scan h
        → AreBarren h barren.old
        → IfOk result (λ found. Finds found (packets_in h views.now (sections_of views.now))
        (made_in h views.now (sections_of views.now)) (read_heads_in h views.now (sections_of views.now))) }
    ensures barren { (h : HandBytes)
        → AreToldIn (S.told sources.old) hand.now.given.extents hand.now.runs hand.now.scan h
        → AreBarren h barren.old → OnOk result (AreBarren h barren.new) }
{
    let sections = sections_in(alloc, views)?;
    let heads = Heads::of(alloc, views.catalogue())?;
    let mut found = Found::new(alloc);
    for section in &sections {
        add_section(alloc, hand, sources, barren, &heads, *section, &mut found)?;
    }
    Ok(found)
}

/// One round: what is put together is added to what is held. It answers whether something was added. A reading that
/// found no packet in the round before isn't repeated.
#[tactic(auto, unfolding(crate::specs::Rounds::round))]
fn round<S: Sources>(
    alloc: Global,
    hand: &Hand,
    sources: &mut S,
    barren: &mut BarrenReadings,
    views: &mut Views,
) -> Result<bool, SourceFault>
    ensures told { S.told sources.new ≡ S.told sources.old }
    ensures round { (h : HandBytes)
        → AreToldIn (S.told sources.old) hand.now.given.extents hand.now.runs hand.now.scan h
        → AreBarren h barren.old → OnOk result (views.new ≡ round h views.old) }
    ensures none { IfOk result (λ is_more. (is_more ≡ true) ⊎ (views.new ≡ views.old)) }
    ensures barren { (h : HandBytes)
        → AreToldIn (S.told sources.old) hand.now.given.extents hand.now.runs hand.now.scan h
        → AreBarren h barren.old → OnOk result (AreBarren h barren.new) }
{
    views.catalogue().laws();
    barren.begin_round(alloc);
    let found = found_in(alloc, hand, sources, barren, views)?;
    let (packets, made) = found.into_taken()?;
    let is_more_read = add_new(views, packets)?;
    let is_more_made = add_new(views, made)?;
    Ok(is_more_read || is_more_made)
}

/// Adds notes to what is held, and answers whether one of them is new.
fn add_new(views: &mut Views, notes: Catalogue) -> Result<bool, OutOfMemory>
    ensures added { OnOk result (views.new ≡ reduced_union views.old notes) }
    ensures none { IfOk result (λ is_new. (is_new ≡ true) ⊎ (views.new ≡ views.old)) }
{
    let held = views.catalogue();
    held.laws();
    if has_all(held, &notes) {
        return Ok(false);
    }
    match views.merge(notes) {
        Ok(()) => Ok(true),
        Err(_) => Err(OutOfMemory),
    }
}

/// Whether a catalogue has all of these notes, or packets in the places of their heads.
fn has_all(catalogue: &Catalogue, notes: &Catalogue) -> bool
    ensures { result ≡ true → (n : NoteParts) → In n notes.now → has_note catalogue.now n }
{
    notes.notes().all(|note| catalogue.has(note))
}

/// What is held after `count` rounds at most.
fn rounds<S: Sources>(
    alloc: Global,
    hand: &Hand,
    sources: &mut S,
    held: Views,
) -> Result<Views, SourceFault>
    ensures told { S.told sources.new ≡ S.told sources.old }
    ensures rounds { (h : HandBytes)
        → AreToldIn (S.told sources.old) hand.now.given.extents hand.now.runs hand.now.scan h
        → IfOk result (λ views. views ≡ put_together h held) }
{
    let mut views = held;
    let mut barren = BarrenReadings::new(alloc);
    for number in 0..GREATEST_ROUNDS {
        if !round(alloc, hand, sources, &mut barren, &mut views)? {
            return Ok(views);
        }
    }
    Ok(views)
}

/// Puts together packets of bytes at hand: what lies over the border of two sources, and what is held as a head alone.
///
/// What would be ordered of what is held, and is at hand, is read as if it had been restored, in up to 64 rounds. What
/// is held stays, and what is added lies where nothing was held, or is the packet of a head. A reading that found no
/// packet isn't repeated in the next round. The only faults are out of memory and a read that failed.
pub fn put_together<S: Sources>(
    alloc: Global,
    views: Views,
    given: Given,
    sources: &mut S,
) -> Result<PutTogether, SourceFault>
    ensures told { S.told sources.new ≡ S.told sources.old }
    ensures views { (told : List SourceParts) (h : HandBytes) → AreTold (S.told sources.old) given.extents told
        → AreOf told h → h.scan ≡ Full → IfOk result (λ p. p.views ≡ put_together h views) }
    ensures hand { (told : List SourceParts) (h : HandBytes) → AreTold (S.told sources.old) given.extents told
        → AreOf told h → IfOk result (λ p. p.at_hand.hand ≡ h.runs) }
    ensures given { IfOk result (λ p. p.at_hand.given ≡ given.given) }
{
    put_together_by(alloc, Scan::Full, views, given, sources)
}

/// The same by a scan: a skim doesn't read the values of a container's packets. It passes over them, also where it
/// makes the packet of a head.
pub fn put_together_by<S: Sources>(
    alloc: Global,
    scan: Scan,
    views: Views,
    given: Given,
    sources: &mut S,
) -> Result<PutTogether, SourceFault>
    ensures told { S.told sources.new ≡ S.told sources.old }
    ensures views { (told : List SourceParts) (h : HandBytes) → AreTold (S.told sources.old) given.extents told
        → AreOf told h → h.scan ≡ scan → IfOk result (λ p. p.views ≡ put_together h views) }
    ensures hand { (told : List SourceParts) (h : HandBytes) → AreTold (S.told sources.old) given.extents told
        → AreOf told h → IfOk result (λ p. p.at_hand.hand ≡ h.runs) }
    ensures given { IfOk result (λ p. p.at_hand.given ≡ given.given) }
{
    let hand = Hand::of(alloc, scan, given, sources)?;
    let views = rounds(alloc, &hand, sources, views)?;
    let at_hand = hand.into_at_hand();
    Ok(PutTogether { views, at_hand })
}

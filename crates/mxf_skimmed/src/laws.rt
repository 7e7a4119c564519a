//! The laws of what skims hold and say: functions that do nothing, whose clauses hold of all values.
ghost use Rattle.std.specs.Prelude.{◌≡◌, ◌↔◌, ◌++◌, false, true, Bool, List, [], map};
ghost use Rattle.mxf_klv.specs.Note.{head_note};
ghost use Rattle.mxf_klv.specs.Parts.{NoteParts, PacketParts};
ghost use Rattle.mxf_klv.specs.Rising.{In};
ghost use Rattle.mxf_catalogue.specs.Content.{AreReduced, IsCatalogue, IsContent, IsLocated, reduced_union};
ghost use Rattle.mxf_catalogue.specs.Disputes.{IsDisputed, Overlaps, SharesOffset, clear_notes, disputed_notes, is_disputed};
ghost use Rattle.mxf_catalogue.specs.History.{HandsSame};
ghost use Rattle.mxf_views.specs.Gaps.{gaps_of};
ghost use Rattle.mxf_views.specs.Headline.{IsNoteOf, IsReadFromFront};
ghost use Rattle.mxf_views.specs.WellFormed.{IsWellFormed};
ghost use Rattle.mxf_views.specs.WholeFile.{AreNotesOf};
ghost use Rattle.mxf_doubts.specs.Doubts.{doubts_of};
ghost use Rattle.mxf_findings.specs.Findings.{findings_of};
ghost use Rattle.mxf_findings.specs.SameViews.{SameViews};
ghost use Rattle.mxf_readings.specs.Readings.{is_held};
ghost use Rattle.mxf_skim.specs.PassedOver.{is_of_container, is_passed_over, noted_by, skimmed};
ghost use Rattle.mxf_skim.specs.Saving.{with_heads};
ghost use Rattle.mxf_skim.specs.declared.scan.Scan.TheVariants.{Skim};
ghost use Rattle.mxf_read.specs.Gathering.{HandedBy};
ghost use Rattle.mxf_read.specs.SkimGathering.{IsTheSkim};
ghost use Rattle.mxf_read.specs.declared.gathering.part.Part.{Part};
ghost use Rattle.mxf_lines.specs.Lines.{note_line};
ghost use Rattle.mxf_skimmed.specs.SkimmedLines.{PrintsTheSame, with_head};
ghost use Rattle.mxf_skimmed.specs.SkimmedRuns.{AreReadAndSkimmed, IsSkimOf, SaysTheSame};
ghost use Rattle.mxf_skimmed.specs.Skims.{NoneAlike, disputed_beside, noted_beside, skim_beside, skim_of};

use std::io::Read;

/// A law of [`gather_skim`](mxf_read::gather_skim): where no two notes of a container's packets are alike that a
/// reading holds, a skim holds its notes, but that packets of a container were passed over of which no saved catalogue
/// has the note. All other notes are as they were read. Without a catalogue each packet of a container was passed over.
/// Two notes of a container's packets with one head are one to a skim.
pub fn skims_hold_what_was_read()
    ensures held { (read saved notes : List NoteParts) → IsContent notes
        → ((n : NoteParts) → In n notes ↔ IsLocated (λ m. In m (read ++ saved)) n) → NoneAlike notes
        → IsTheSkim (λ m. In m (noted_by Skim read ++ saved)) (skim_beside saved notes) }
    ensures members { (saved notes : List NoteParts) (n : NoteParts)
        → In n (skim_beside saved notes) ↔ ((m : NoteParts) × In m notes × (n ≡ noted_beside saved m)) }
    ensures others { (saved : List NoteParts) (n : NoteParts) → is_of_container n ≡ false → noted_beside saved n ≡ n }
    ensures alone { (notes : List NoteParts) → skim_beside [] notes ≡ skim_of notes }
    ensures alike { (m n : NoteParts) → is_of_container m ≡ true → is_of_container n ≡ true
        → head_note m ≡ head_note n → skimmed m ≡ skimmed n }
{}

/// A law of skims: where no two notes of a container's packets are alike, the notes of a skim are a content, if those
/// of the reading are, and each is a note. They are reduced in any case, if those of the reading are.
pub fn skims_are_contents()
    ensures rising { (saved notes : List NoteParts)
        → IsContent notes → NoneAlike notes → IsContent (skim_beside saved notes) }
    ensures notes { (saved notes : List NoteParts)
        → IsCatalogue notes → NoneAlike notes → IsCatalogue (skim_beside saved notes) }
    ensures reduced { (saved notes : List NoteParts) → AreReduced notes → AreReduced (skim_beside saved notes) }
{}

/// A law of skims: where no two notes of a container's packets are alike, each note of a skim is disputed or clear as
/// that of the reading is. No two are alike where none are disputed.
pub fn skims_are_disputed_as_readings_are()
    ensures each { (saved notes : List NoteParts) (n : NoteParts) → NoneAlike notes → In n notes
        → is_disputed (noted_beside saved n) (skim_beside saved notes) ≡ is_disputed n notes }
    ensures disputed { (saved notes : List NoteParts) → NoneAlike notes
        → disputed_notes (skim_beside saved notes) ≡ map (disputed_beside saved) (disputed_notes notes) }
    ensures clear { (saved notes : List NoteParts) → NoneAlike notes
        → clear_notes (skim_beside saved notes) ≡ skim_beside saved (clear_notes notes) }
    ensures undisputed { (notes : List NoteParts) → disputed_notes notes ≡ [] → NoneAlike notes }
{}

/// A law of [`gather_skim`](mxf_read::gather_skim): whether packets of a container are alike or not, a skim disputes the notes of
/// all other packets as the reading does that was handed the same pieces and saved catalogues, by the same marks.
pub fn skims_dispute_the_other_packets()
    ensures disputed { (read saved notes skim : List NoteParts)
        → ((m : NoteParts) → In m notes ↔ IsLocated (λ x. In x (read ++ saved)) m)
        → IsTheSkim (λ x. In x (noted_by Skim read ++ saved)) skim → (n : NoteParts) → is_of_container n ≡ false
        → IsDisputed n skim ↔ IsDisputed n notes }
    ensures same_offset { (read saved notes skim : List NoteParts)
        → ((m : NoteParts) → In m notes ↔ IsLocated (λ x. In x (read ++ saved)) m)
        → IsTheSkim (λ x. In x (noted_by Skim read ++ saved)) skim → (n : NoteParts) → is_of_container n ≡ false
        → SharesOffset n skim ↔ SharesOffset n notes }
    ensures overlaps { (read saved notes skim : List NoteParts)
        → ((m : NoteParts) → In m notes ↔ IsLocated (λ x. In x (read ++ saved)) m)
        → IsTheSkim (λ x. In x (noted_by Skim read ++ saved)) skim → (n : NoteParts) → is_of_container n ≡ false
        → Overlaps n skim ↔ Overlaps n notes }
{}

/// A law of [`Views`](mxf_views::Views): where no two notes of a container's packets are alike, the views of a skim are
/// those of the reading. Its gaps are in any case.
pub fn skims_have_the_same_views()
    ensures views { (saved notes : List NoteParts) → NoneAlike notes → SameViews (skim_beside saved notes) notes }
    ensures gaps { (saved notes : List NoteParts) → gaps_of (skim_beside saved notes) ≡ gaps_of notes }
{}

/// A law of [`Views`](mxf_views::Views): if the content of a reading is the notes of a well-formed file, the views of
/// the skim are those of the reading of the file from the front.
pub fn skims_of_whole_files_are_read_from_the_front()
    ensures { (saved notes : List NoteParts) (l : List PacketParts) → IsWellFormed l → AreNotesOf notes l
        → IsReadFromFront (skim_beside saved notes) l }
{}

/// A law of [`findings`](mxf_findings::findings): where no two notes of a container's packets are alike, the findings
/// of a skim are those of the reading.
pub fn skims_have_the_same_findings()
    ensures { (saved notes : List NoteParts) → NoneAlike notes
        → findings_of (skim_beside saved notes) ≡ findings_of notes }
{}

/// A law of [`Doubts::of`](mxf_doubts::Doubts::of): where no two notes of a container's packets are alike, the doubts of a
/// skim are those of the reading.
pub fn skims_have_the_same_doubts()
    ensures { (saved notes : List NoteParts) → NoneAlike notes → doubts_of (skim_beside saved notes) ≡ doubts_of notes }
{}

/// A law of [`with_heads`](mxf_skim::with_heads): what is saved of a skim, joined with the content of the reading, is
/// that content.
pub fn saved_skims_are_completed_by_readings()
    ensures { (saved notes : List NoteParts) → IsContent notes → AreReduced notes
        → reduced_union (with_heads (skim_beside saved notes)) notes ≡ notes }
{}

/// A law of [`with_heads`](mxf_skim::with_heads): what is saved of a content, as of a skim, joined with the content is the content.
/// So a saved skim changes nothing beside the skim.
pub fn saved_skims_say_nothing_new()
    ensures { (notes : List NoteParts) → IsContent notes → AreReduced notes
        → reduced_union (with_heads notes) notes ≡ notes }
{}

/// A law of [`gather_skim`](mxf_read::gather_skim): where a reading of the same parts holds no two notes of a
/// container's packets that are alike, the skim holds the notes of the reading, those of packets that were passed over
/// without their digests, and says all that the reading says. What is saved of it, joined with the content of the
/// reading, is that content. If the parts hand the packets of a well-formed file, what the skim says is what the file's
/// reading from the front says.
pub fn skims_say_what_readings_say<R: Read>()
    ensures holds { (parts : List (Part R)) (notes skim : List NoteParts)
        → AreReadAndSkimmed R.remaining parts notes skim → NoneAlike notes → IsSkimOf R.remaining parts notes skim }
    ensures says { (parts : List (Part R)) (notes skim : List NoteParts)
        → AreReadAndSkimmed R.remaining parts notes skim → NoneAlike notes → SaysTheSame skim notes }
    ensures saved { (parts : List (Part R)) (notes skim : List NoteParts)
        → AreReadAndSkimmed R.remaining parts notes skim → NoneAlike notes
        → reduced_union (with_heads skim) notes ≡ notes }
    ensures whole { (parts : List (Part R)) (notes skim : List NoteParts) (l : List PacketParts)
        → AreReadAndSkimmed R.remaining parts notes skim → IsWellFormed l
        → HandsSame (IsNoteOf l) (HandedBy R.remaining parts) → IsReadFromFront skim l }
{}

/// A law of [`answer`](mxf_lines::answer): where a reading holds no two notes of a container's packets that are alike,
/// `show`, `check`, `check --doubts`, `describe`, `locate` and `join` have of a skim the lines and the status of the reading, as text and
/// as JSON. But the line of a note, which `show` has, says ` head` too if the packet was passed over, as the line of
/// the note's head does. Each packet of a container was passed over of which no saved catalogue has the note, and none
/// of another kind.
///
/// The reports of pieces are the same: [`gather_skim`](mxf_read::gather_skim) answers those of a reading.
pub fn skims_print_what_readings_print<R: Read>()
    ensures prints { (saved notes : List NoteParts) → NoneAlike notes
        → PrintsTheSame saved notes (skim_beside saved notes) }
    ensures parts { (parts : List (Part R)) (notes skim : List NoteParts)
        → AreReadAndSkimmed R.remaining parts notes skim → NoneAlike notes
        → (is : IsSkimOf R.remaining parts notes skim) × PrintsTheSame is.saved notes skim }
    ensures passed { (saved : List NoteParts) (n : NoteParts) → is_of_container n ≡ true → is_held n saved ≡ false
        → is_passed_over (noted_beside saved n) ≡ true }
    ensures others { (saved : List NoteParts) (n : NoteParts) → is_of_container n ≡ false
        → is_passed_over (noted_beside saved n) ≡ false }
    ensures head { (n : NoteParts) (disputed : Bool)
        → note_line (head_note n) disputed ≡ with_head (note_line n disputed) }
{}

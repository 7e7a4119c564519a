//! Findings of all notes: disputes, gaps, and packets that can't be read.
ghost use Rattle.std.specs.Prelude.{◌≡◌, ◌++◌, OnOk, map};
ghost use Rattle.mxf_findings.specs.Codes.{finding};
ghost use Rattle.mxf_findings.specs.Findings.{clear_at, disputed_at, findings_for, is_dispute_cause, is_note_cause};

use super::Code;
use super::collected::Collected;
use super::readable::{is_unreadable_segment, is_unreadable_set};
use mxf_catalogue::Disputed;
use mxf_klv::{Note, OutOfMemory};
use mxf_views::Views;

/// Whether the code is that of how the note is disputed.
fn is_dispute_cause(code: Code, disputed: &Disputed<'_>) -> bool
    ensures { result ≡ is_dispute_cause code disputed.now }
{
    match code {
        Code::F01 => disputed.same_offset,
        Code::F02 => disputed.overlaps,
        _ => false,
    }
}

/// Whether the code is that of a packet which isn't readable, as the note's isn't.
fn is_note_cause(code: Code, note: &Note) -> bool
    ensures { result ≡ is_note_cause code note.now }
{
    match code {
        Code::F10 => is_unreadable_set(note),
        Code::F11 => is_unreadable_segment(note),
        _ => false,
    }
}

impl Collected {
    /// Disputed notes, by how they are disputed.
    pub(super) fn add_disputed(&mut self, code: Code, views: &Views) -> Result<(), OutOfMemory>
        ensures { OnOk result (self.new ≡ self.old ++ map (finding code) (disputed_at code views.now)) }
    {
        for disputed in views.catalogue().disputed() {
            if is_dispute_cause(code, &disputed) {
                self.add(code, disputed.note.offset())?;
            }
        }
        Ok(())
    }

    /// Gaps.
    pub(super) fn add_gaps(&mut self, views: &Views) -> Result<(), OutOfMemory>
        ensures { OnOk result (self.new ≡ self.old ++ findings_for Code.F03 views.now) }
    {
        for gap in views.gaps() {
            self.add(Code::F03, gap.start)?;
        }
        Ok(())
    }

    /// Clear packets that aren't readable.
    pub(super) fn add_clear(&mut self, code: Code, views: &Views) -> Result<(), OutOfMemory>
        ensures { OnOk result (self.new ≡ self.old ++ map (finding code) (clear_at code views.now)) }
    {
        for note in views.catalogue().clear() {
            if is_note_cause(code, note) {
                self.add(code, note.offset())?;
            }
        }
        Ok(())
    }
}

//! Doubts about packets by their keys and items.
ghost use Rattle.std.specs.Prelude.{◌≡◌, ◌++◌, OnOk, map};
ghost use Rattle.mxf_doubts.specs.Codes.{doubt};
ghost use Rattle.mxf_doubts.specs.Doubts.{clear_at};

use super::Code;
use super::asked::Asked;
use super::collected::Collected;
use mxf_klv::OutOfMemory;

impl Collected {
    /// Clear packets that have the cause of the code.
    pub(super) fn add_clear(&mut self, code: Code, asked: &Asked<'_>) -> Result<(), OutOfMemory>
        ensures { OnOk result (self.new ≡ self.old ++ map (doubt code) (clear_at code asked.now)) }
    {
        for note in asked.views().catalogue().clear() {
            if asked.is_note_cause(code, note) {
                self.add(code, note.offset())?;
            }
        }
        Ok(())
    }
}

//! The lines of the copies of the header metadata.
ghost use Rattle.std.specs.Prelude.{◌≡◌};
ghost use Rattle.mxf_lines.specs.Lines.{copy_line, finished_word, preferred_line};

use super::{AllocError, Line};
use mxf_forms::FieldWriter;
use mxf_views::CopyInfo;

/// The word that says whether a copy is finished.
pub fn finished_word(finished: bool) -> &'static str
    ensures { result.now ≡ finished_word finished }
{
    if finished { "finished" } else { "unfinished" }
}

/// A copy: its partition, its start, the bytes stated and covered, and whether it is finished.
impl Line for CopyInfo {
    ghost line = { copy_line };

    #[tactic(auto, unfolding(crate::specs::Lines::copy_line))]
    fn write_fields(&self, fields: &mut FieldWriter) -> Result<(), AllocError> {
        fields.begin("copy", "copy")?;
        fields.number(" ", "partition", self.partition)?;
        fields.known(" start ", "start", "none", self.start)?;
        fields.number(" bytes ", "bytes", self.bytes)?;
        fields.number(" covered ", "covered", self.covered)?;
        fields.word(" ", "state", finished_word(self.finished))?;
        fields.end("")
    }
}

/// The preferred copy: its partition.
#[derive(Clone, Copy)]
pub struct PreferredLine(pub Option<CopyInfo>);

impl Line for PreferredLine {
    ghost line = { λ l. preferred_line l.0 };

    #[tactic(auto, unfolding(crate::specs::Lines::preferred_line))]
    fn write_fields(&self, fields: &mut FieldWriter) -> Result<(), AllocError> {
        let partition = self.0.map(|copy| copy.partition);
        fields.begin("preferred", "preferred")?;
        fields.known(" ", "partition", "none", partition)?;
        fields.end("")
    }
}

//! Reading the bytes of a part.
ghost use Rattle.std.specs.Prelude.{◌≡◌, ◌≤◌, length, take, IfErr, IfSome, OnOk};
ghost use Rattle.std.specs.Io.KnownBytes.{Consumes};
ghost use Rattle.mxf_read.specs.Gathering.{IsOfAnyPart};

use super::PartFault;
use crate::reading::{GREATEST_INTERRUPTIONS, Step, read_step};
use std::io::Read;

/// Fills a buffer with the bytes that a reader gives, up to a limit, in place of what it had. Interrupted reads are
/// repeated, 1,024 times at most. The buffer keeps its room, so what was room enough before takes no memory.
pub(super) fn read_up_to<R: Read>(
    from: &mut R,
    limit: u64,
    bytes: &mut Vec<u8>,
) -> Result<(), PartFault>
    ensures bytes { OnOk result (IfSome (R.remaining from.old) (λ all. bytes.new.items ≡ take limit all)) }
    ensures left { OnOk result (Consumes (R.remaining from.old) (R.remaining from.new) bytes.new.items) }
    ensures bound { OnOk result (length bytes.new.items ≤ limit) }
    ensures fault { IfErr result IsOfAnyPart }
{
    bytes.clear();
    let mut buffer = [0u8; 65536];
    let mut interruptions = 0;
    'reads: while (bytes.len() as u64) < limit {
        let room = (limit - bytes.len() as u64).min(buffer.len() as u64) as usize;
        match read_step(from, &mut buffer[..room]) {
            Step::Took(count) => bytes.extend_from_slice(&buffer[..count])?,
            Step::Ended => return Ok(()),
            Step::Interrupted if interruptions < GREATEST_INTERRUPTIONS => interruptions += 1,
            Step::Interrupted | Step::Failed => return Err(PartFault::ReadFault),
        }
    }
    Ok(())
}

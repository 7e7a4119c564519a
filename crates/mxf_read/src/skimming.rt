//! Skimming a piece: reading it without the values that are passed over.
ghost use Rattle.std.specs.Prelude.{◌≡◌, ◌<◌, ◌≤◌, length};
ghost use Rattle.mxf_read.specs.Feeding.{IsFed, passing_left};
ghost use Rattle.mxf_read.specs.Skimming.{SkimsAll, SkimsOnce};

use crate::pass_over::PassOver;
use crate::piece::Piece;
use crate::reading::{Cause, GREATEST_INTERRUPTIONS, StepFault, feed_step};
use std::io::ErrorKind;

/// How many bytes are read at once. No more than these are read of a value that is passed over.
const ROOM: usize = 4096;

/// Skims at most `limit` bytes of the reader, until the piece stops. Interrupted steps are repeated, 1,024 times at
/// most.
pub(crate) fn skim_all<R: PassOver>(
    piece: &mut Piece,
    from: &mut R,
    limit: u64,
) -> Result<(), Cause>
    requires { IsFed piece.old }
    ensures { SkimsAll (R.remaining from.old) (R.remaining from.new) piece.old piece.new limit result }
{
    let mut buffer = [0u8; ROOM];
    let mut left = limit;
    let mut interruptions = 0;
    'steps: while left > 0 && !piece.has_stopped() {
        match skim_step(piece, from, left, &mut buffer) {
            Ok(0) => return Ok(()),
            Ok(count) => left -= count,
            Err(StepFault::Interrupted) if interruptions < GREATEST_INTERRUPTIONS => {
                interruptions += 1;
            }
            Err(StepFault::OutOfMemory) => return Err(Cause::OutOfMemory),
            Err(StepFault::Interrupted | StepFault::Failed) => return Err(Cause::ReadFault),
        }
    }
    Ok(())
}

/// Passes over bytes of a value once, or reads once; it says how many bytes were taken, none at the end.
fn skim_step<R: PassOver>(
    piece: &mut Piece,
    from: &mut R,
    left: u64,
    buffer: &mut [u8],
) -> Result<u64, StepFault>
    requires fed { IsFed piece.old }
    requires left { 0 < left }
    requires room { 0 < length buffer.old }
    ensures { SkimsOnce (R.remaining from.old) (R.remaining from.new) piece.old piece.new left result }
{
    let passing = piece.passing().min(left);
    if passing > buffer.len() as u64 {
        pass_step(piece, from, passing)
    } else {
        feed_step(piece, from, left, buffer)
    }
}

/// Passes over at most `count` bytes of a value.
fn pass_step<R: PassOver>(piece: &mut Piece, from: &mut R, count: u64) -> Result<u64, StepFault>
    requires fed { IsFed piece.old }
    requires some { 0 < count }
    requires within { count ≤ passing_left piece.old.stop piece.old.value }
    ensures { SkimsOnce (R.remaining from.old) (R.remaining from.new) piece.old piece.new count result }
{
    match from.pass_over(count) {
        Ok(passed) => {
            piece.pass(passed)?;
            Ok(passed)
        }
        Err(fault) if fault.kind() == ErrorKind::Interrupted => Err(StepFault::Interrupted),
        Err(_) => Err(StepFault::Failed),
    }
}

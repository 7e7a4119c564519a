//! Reading once, and feeding a piece from a reader.
ghost use Rattle.std.specs.Prelude.{◌≡◌, ◌+◌, ◌<◌, ◌≤◌, None, OnErr, OnOk, length};
ghost use Rattle.mxf_read.specs.Feeding.{IsFed};
ghost use Rattle.mxf_read.specs.Reads.{ReadsAll, ReadsOnce};
ghost use Rattle.mxf_read.specs.Skimming.{SkimsAll, SkimsOnce};
ghost use Rattle.mxf_read.specs.declared.reading.Cause.TheVariants as causes;
ghost use Rattle.mxf_read.specs.declared.reading.StepFault.TheVariants as faults;

use crate::digesting::MOST;
use crate::piece::Piece;
use crate::ticks::ReadTicks;
use mxf_klv::OutOfMemory;
use std::io::{ErrorKind, Read};

/// How often an interrupted read of one source is repeated.
pub const GREATEST_INTERRUPTIONS: u32 = 1024;

/// How many bytes a window has room for at first.
const LEAST_ROOM: u64 = 65_536;

/// The greatest number of bytes that a window has room for.
const GREATEST_ROOM: u64 = 16_777_216;

/// How many values are digested side by side.
const SIDE_BY_SIDE: u64 = 4;

/// What one read came to.
#[derive(Clone, Copy, Debug, PartialEq, Eq)]
pub enum Step {
    /// This many bytes were taken, at least one. They stand at the front of the room.
    Took(usize),
    /// The reader has ended.
    Ended,
    /// The read was interrupted and took nothing. It can be repeated.
    Interrupted,
    /// The read failed and took nothing.
    Failed,
}

/// Why a piece wasn't read to its end.
#[derive(Clone, Copy, Drop)]
pub(crate) enum Cause {
    OutOfMemory,
    ReadFault,
}

impl From<OutOfMemory> for Cause {
    ghost from_gives = { λ _ e. e ≡ causes.OutOfMemory };

    fn from(_fault: OutOfMemory) -> Cause {
        Cause::OutOfMemory
    }
}

/// Why one step of a reading or a skim took nothing.
#[derive(Clone, Copy, Drop)]
pub(crate) enum StepFault {
    OutOfMemory,
    Interrupted,
    Failed,
}

impl From<OutOfMemory> for StepFault {
    ghost from_gives = { λ _ e. e ≡ faults.OutOfMemory };

    fn from(_fault: OutOfMemory) -> StepFault {
        StepFault::OutOfMemory
    }
}

/// Reads once, as many bytes at most as there is room.
pub fn read_step<R: Read>(from: &mut R, room: &mut [u8]) -> Step
    requires { 0 < length room.old }
    ensures { ReadsOnce (R.remaining from.old) (R.remaining from.new) room.new result }
{
    match from.read(room) {
        Ok(0) => Step::Ended,
        Ok(count) => Step::Took(count),
        Err(fault) if fault.kind() == ErrorKind::Interrupted => Step::Interrupted,
        Err(_) => Step::Failed,
    }
}

/// Reads once for a piece, which hasn't stopped, and counts it. Nothing else reads for a piece.
fn read_once<R: Read>(_piece: &Piece, from: &mut R, room: &mut [u8], ticks: &mut ReadTicks) -> Step
    requires goes_on { _piece.now.stop ≡ None }
    requires room { 0 < length room.old }
    ensures one { ticks.new.count ≡ ticks.old.count + 1 }
    ensures bytes { ReadsOnce (R.remaining from.old) (R.remaining from.new) room.new result }
{
    *ticks = ticks.next();
    read_step(from, room)
}

/// Feeds the piece with at most `limit` bytes of the reader, until it stops. Interrupted reads are repeated, 1,024
/// times at most.
pub(crate) fn read_all<R: Read>(
    piece: &mut Piece,
    from: &mut R,
    limit: u64,
    ticks: &mut ReadTicks,
) -> Result<(), Cause>
    requires { IsFed piece.old }
    ensures reads { ticks.new.count ≤ ticks.old.count + limit + 1026 }
    ensures counts { ticks.old.count ≤ ticks.new.count }
    ensures bytes { ReadsAll (R.remaining from.old) (R.remaining from.new) piece.old piece.new limit result }
{
    let mut buffer = [0u8; 65536];
    let mut left = limit;
    let mut interruptions = 0;
    'reads: while left > 0 && !piece.has_stopped() {
        let room = left.min(buffer.len() as u64) as usize;
        match read_once(piece, from, &mut buffer[..room], ticks) {
            Step::Took(count) => match piece.feed(&buffer[..count]) {
                Ok(()) => left -= count as u64,
                Err(OutOfMemory) => return Err(Cause::OutOfMemory),
            },
            Step::Ended => return Ok(()),
            Step::Interrupted if interruptions < GREATEST_INTERRUPTIONS => interruptions += 1,
            Step::Interrupted | Step::Failed => return Err(Cause::ReadFault),
        }
    }
    Ok(())
}

/// Reads once, at most `left` bytes, and feeds them.
pub(crate) fn feed_step<R: Read>(
    piece: &mut Piece,
    from: &mut R,
    left: u64,
    buffer: &mut [u8],
) -> Result<u64, StepFault>
    requires fed { IsFed piece.old }
    requires left { 0 < left }
    requires room { 0 < length buffer.old }
    ensures { SkimsOnce (R.remaining from.old) (R.remaining from.new) piece.old piece.new left result }
{
    let room = left.min(buffer.len() as u64) as usize;
    match read_step(from, &mut buffer[..room]) {
        Step::Took(count) => {
            piece.feed(&buffer[..count])?;
            Ok(count as u64)
        }
        Step::Ended => Ok(0),
        Step::Interrupted => Err(StepFault::Interrupted),
        Step::Failed => Err(StepFault::Failed),
    }
}

/// Feeds the piece with at most `limit` bytes of the reader, until it stops, through a window. Interrupted reads are
/// repeated, 1,024 times at most.
///
/// The first read is of 65,536 bytes at most. After one that fills its room with few packets the next has twice as
/// much, up to 16,777,216 bytes, if there is memory: so the values of many packets come at once, and are digested side
/// by side. Where a value is too long for that, the room stays. Of packets of one size a read takes no part of one, and
/// a multiple of four. The window keeps its memory for the next piece.
pub(crate) fn read_through<R: Read>(
    piece: &mut Piece,
    from: &mut R,
    limit: u64,
    window: &mut Vec<u8>,
) -> Result<(), Cause>
    requires { IsFed piece.old }
    ensures { SkimsAll (R.remaining from.old) (R.remaining from.new) piece.old piece.new limit result }
{
    let mut room = LEAST_ROOM;
    let mut left = limit;
    let mut packet = 0;
    let mut interruptions = 0;
    widen(window, room)?;
    'steps: while left > 0 && !piece.has_stopped() {
        let noted = piece.noted();
        packet = size_begun(piece).unwrap_or(packet);
        let asked = left.min(even_read(piece, packet, room));
        match feed_step(piece, from, asked, window) {
            Ok(0) => return Ok(()),
            Ok(count) => {
                left -= count;
                if count == asked && gains_by_more(piece, noted) {
                    room = more_room(window, room);
                }
            }
            Err(StepFault::Interrupted) if interruptions < GREATEST_INTERRUPTIONS => {
                interruptions += 1;
            }
            Err(StepFault::OutOfMemory) => return Err(Cause::OutOfMemory),
            Err(StepFault::Interrupted | StepFault::Failed) => return Err(Cause::ReadFault),
        }
    }
    Ok(())
}

/// The number of bytes of the packet whose value has begun, if one has.
fn size_begun(piece: &Piece) -> Option<u64> {
    Some(piece.coming()?.size())
}

/// How many bytes the next read takes at most, if there is room for so many: those to come of the value that has begun,
/// and after it of as many packets of one size as end with a multiple of four. If four don't come whole, as many as there
/// is room for.
fn even_read(piece: &Piece, packet: u64, room: u64) -> u64
    requires { 0 < room }
    ensures some { 0 < result }
    ensures within { result ≤ room }
{
    let begun = match piece.coming() {
        Some(value) => value.left(),
        None => 0,
    };
    let four = packet.saturating_mul(SIDE_BY_SIDE);
    if four == 0 || room < begun {
        return room;
    }
    let even = room - (room - begun) % four;
    if even > begun { even } else { room }
}

/// Whether more packets would be digested at once if more bytes came at once: fewer were noted since there were
/// `before` notes than are digested at once, and the value that has begun isn't too long.
fn gains_by_more(piece: &Piece, before: u64) -> bool {
    if piece.noted() >= before.saturating_add(MOST as u64) {
        return false;
    }
    match piece.coming() {
        Some(value) => value.length() <= GREATEST_ROOM / 4,
        None => true,
    }
}

/// Makes room in the window for so many bytes.
fn widen(window: &mut Vec<u8>, room: u64) -> Result<(), OutOfMemory>
    ensures room { OnOk result (room ≤ length window.new.items) }
    ensures err { OnErr result (window.new.items ≡ window.old.items) }
{
    if (window.len() as u64) < room {
        window.resize(room as usize, 0)?;
    }
    Ok(())
}

/// Twice the room, up to [`GREATEST_ROOM`]. If there is no memory for it, the same.
fn more_room(window: &mut Vec<u8>, room: u64) -> u64
    requires some { 0 < room }
    requires within { room ≤ length window.old.items }
    ensures some { 0 < result }
    ensures within { result ≤ length window.new.items }
{
    let more = room.saturating_mul(2).min(GREATEST_ROOM);
    match widen(window, more) {
        Ok(()) => more,
        Err(OutOfMemory) => room,
    }
}

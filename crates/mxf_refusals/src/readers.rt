//! Readers: how many reads they are asked for, and what one that fails leaves.
use crate::files::M;
use mxf_read::{
    AbsorbFault, GatherFault, Part, PartFault, PieceReport, ReadTicks, Report, Stop, absorb_from,
    gather,
};
use mxf_views::Views;
use std::alloc::Global;
use std::io::{self, Error, ErrorKind, Read};

/// Gives single bytes, and fails once after `until` of them. Then it would go on.
#[derive(Drop)]
struct FailsOnce {
    bytes: &'static [u8],
    until: usize,
    failure: Option<ErrorKind>,
    reads: u64,
}

impl Read for FailsOnce {
    fn read(&mut self, buf: &mut [u8]) -> io::Result<usize> {
        self.reads = self.reads.saturating_add(1);
        if self.until == 0 {
            if let Some(kind) = self.failure.take() {
                return Err(Error::from(kind));
            }
        }
        self.until = self.until.saturating_sub(1);
        if buf.is_empty() {
            return Ok(0);
        }
        self.bytes.read(&mut buf[..1])
    }
}

/// The answer to a piece of a reader up to a limit, with the number of reads. The reader fails after some bytes.
type Answer = (Result<Report, AbsorbFault>, u64);

/// The answer to a piece of these bytes at 0.
fn answer_to(alloc: Global, bytes: &'static [u8], limit: u64, fails: (usize, ErrorKind)) -> Answer {
    let (until, kind) = fails;
    let mut from = FailsOnce {
        bytes,
        until,
        failure: Some(kind),
        reads: 0,
    };
    let mut ticks = ReadTicks::new();
    let answer = absorb_from(
        alloc,
        &mut Views::new(alloc),
        0,
        &mut from,
        limit,
        &mut ticks,
    );
    (answer, from.reads)
}

/// Whether that is the answer, even if one growth is refused.
fn is_answered(
    alloc: Global,
    bytes: &'static [u8],
    limit: u64,
    fails: (usize, ErrorKind),
    wanted: Answer,
) -> bool {
    match answer_to(alloc, bytes, limit, fails) {
        (Err(AbsorbFault::OutOfMemory { .. }), _) => {
            answer_to(alloc, bytes, limit, fails) == wanted
        }
        answer => answer == wanted,
    }
}

/// Limits, each with the number of packets, the stop, and the number of reads: one for each byte that is taken, and a
/// last one if the limit isn't reached. Byte 128 ends the length of M's second packet.
const LIMITS: [(u64, u64, Stop, u64); 5] = [
    (1000, 3, Stop::End, 265),
    (264, 3, Stop::End, 264),
    (128, 1, Stop::Truncated(108), 128),
    (120, 1, Stop::Truncated(108), 120),
    (0, 0, Stop::End, 0),
];

/// Whether nothing is read after each limit, where the reader fails.
fn end_at_their_limits(alloc: Global) -> bool {
    for (limit, noted, stop, reads) in LIMITS {
        let fails = (limit as usize, ErrorKind::Other);
        if !is_answered(alloc, &M, limit, fails, (Ok(Report { noted, stop }), reads)) {
            return false;
        }
    }
    true
}

/// Whether nothing is read after a stop, where the reader fails.
fn ends_at_its_stop(alloc: Global) -> bool {
    let (noted, stop) = (0, Stop::NotUl(0));
    let wanted = (Ok(Report { noted, stop }), 4);
    let bytes = &[0x06, 0x0E, 0x2B, 0x35];
    is_answered(alloc, bytes, 1000, (4, ErrorKind::Other), wanted)
}

/// The number of packets that are whole in the first `size` bytes of M, and where the last of them ends.
fn whole_ahead(size: usize) -> (u64, u64) {
    match size {
        0..=107 => (0, 0),
        108..=215 => (1, 108),
        216..=263 => (2, 216),
        _ => (3, 264),
    }
}

/// A kind of fault that no reader is asked again for.
fn kind_at(until: usize) -> ErrorKind {
    match until % 3 {
        0 => ErrorKind::Other,
        1 => ErrorKind::WouldBlock,
        _ => ErrorKind::TimedOut,
    }
}

/// Whether M of a reader that fails after `until` bytes is a fault after its whole packets, and that read the last.
fn ends_at_its_fault(alloc: Global, until: usize) -> bool {
    let (noted, at) = whole_ahead(until);
    let wanted = (
        Err(AbsorbFault::ReadFault { noted, at }),
        (until as u64).saturating_add(1),
    );
    is_answered(alloc, &M, 1000, (until, kind_at(until)), wanted)
}

/// Whether each of these is.
fn end_at_their_faults(alloc: Global) -> bool {
    for until in 0..=264usize {
        if !ends_at_its_fault(alloc, until) {
            return false;
        }
    }
    true
}

#[test]
fn nothing_is_read_behind_a_limit_a_stop_or_a_fault(rt: HostRuntime) {
    let alloc = rt.alloc();
    assert!(rt;
        end_at_their_limits(alloc) && ends_at_its_stop(alloc) && end_at_their_faults(alloc)
    );
}

/// Gives `left` zero bytes, and then fails.
#[derive(Drop)]
struct FailsAfterZeros {
    left: usize,
}

impl Read for FailsAfterZeros {
    fn read(&mut self, buf: &mut [u8]) -> io::Result<usize> {
        if self.left == 0 {
            return Err(Error::from(ErrorKind::Other));
        }
        let count = buf.len().min(self.left);
        buf[..count].fill(0);
        self.left -= count;
        Ok(count)
    }
}

/// The bytes of a range that are searched for its start.
const WINDOW: usize = 33_554_432;

/// What is reported of a range at 0 whose window has no start.
const WITHOUT_A_START: PieceReport = PieceReport {
    part: 0,
    offset: 0,
    report: Report {
        noted: 0,
        stop: Stop::NoStart(33_554_432),
    },
};

/// Whether a range of this number of zero bytes, after which the reader fails, is read without a fault, and reported to
/// have no start. It is None if memory ran out.
fn has_no_start(alloc: Global, zeros: usize) -> Option<bool> {
    let mut parts = Vec::new(alloc);
    let range = Part::Range {
        offset: 0,
        from: FailsAfterZeros { left: zeros },
    };
    parts.push(range).ok()?;
    match gather(alloc, parts) {
        Ok(gathered) => Some(gathered.reports.as_slice() == [WITHOUT_A_START].as_slice()),
        Err(
            GatherFault {
                fault: PartFault::OutOfMemory,
                ..
            },
        ) => None,
        Err(_) => Some(false),
    }
}

/// The same, even if one growth is refused.
fn is_without_a_start(alloc: Global, zeros: usize) -> bool {
    match has_no_start(alloc, zeros) {
        Some(is) => is,
        None => has_no_start(alloc, zeros) == Some(true),
    }
}

#[test]
fn nothing_is_read_after_a_window_without_a_start(rt: HostRuntime) {
    let alloc = rt.alloc();
    assert!(rt; is_without_a_start(alloc, WINDOW) && !is_without_a_start(alloc, WINDOW - 1));
}

//! How far a long piece has been read, told on standard error.
ghost use Rattle.std.specs.Prelude.{◌≡◌, ◌↔◌, ◌<◌, ◌≤◌, IsTrue};
ghost use Rattle.mxf_watching.specs.Progress.{line_pause, seconds_left, short_piece};

use crate::line::ProgressLine;
use std::rt::Clock;
use std::time::Instant;

/// The bytes that a piece has at most if nothing is told of its reading.
const SHORT_PIECE: u64 = 268_435_456;

/// The bytes from one look at the clock to the next, at least.
const LOOK: u64 = 1_048_576;

/// The milliseconds from one line to the next, at least.
const LINE_PAUSE: u64 = 250;

/// Whether the reading of a piece of this size, in bytes, is told.
pub fn is_long(size: u64) -> bool
    ensures { IsTrue result ↔ short_piece < size }
{
    size > SHORT_PIECE
}

/// Whether a line is due that many milliseconds after the one before.
fn is_due(since: u64) -> bool
    ensures { IsTrue result ↔ line_pause ≤ since }
{
    since >= LINE_PAUSE
}

/// The seconds in which the rest is read, where `done` bytes of `size` were read in `elapsed` milliseconds.
fn seconds_left(done: u64, size: u64, elapsed: u64) -> u128
    requires { 0 < elapsed }
    ensures { result ≡ seconds_left done size elapsed }
{
    let rate = u128::from(done / elapsed) + 1;
    u128::from(size.saturating_sub(done)) / rate / 1000
}

/// The milliseconds from one time to another, if they are few enough to count.
fn milliseconds(from: Instant, to: Instant) -> Option<u64> {
    u64::try_from(to.duration_since(from).as_millis()).ok()
}

/// How far a piece has been read. Its line stands on standard error until this is dropped.
pub struct ReadProgress<'a, R: Eprint + Clock> {
    rt: &'a R,
    path: String,
    size: u64,
    done: u64,
    looked: u64,
    start: Option<Instant>,
    told: Option<Instant>,
}

impl<'a, R: Eprint + Clock> ReadProgress<'a, R> {
    /// Of the piece at `path`, as it is shown, which has `size` bytes, none has been read.
    pub fn new(rt: &'a R, path: String, size: u64) -> ReadProgress<'a, R> {
        ReadProgress {
            rt,
            path,
            size,
            done: 0,
            looked: 0,
            start: None,
            told: None,
        }
    }

    /// Begins to measure the time, at the first call.
    pub fn begin(&mut self) {
        if self.start.is_none() {
            self.start = Instant::now(self.rt).ok();
        }
    }

    /// Counts bytes that were read, and prints the line if it is due. Without a clock there is no line.
    pub fn count(&mut self, bytes: usize) {
        self.done = self.done.saturating_add(bytes as u64);
        if self.done.saturating_sub(self.looked) < LOOK {
            return;
        }
        self.looked = self.done;
        if let (Some(start), Ok(now)) = (self.start, Instant::now(self.rt)) {
            self.tell(start, now);
        }
    }

    /// Prints the line if it is due. A failed write is ignored.
    fn tell(&mut self, start: Instant, now: Instant) {
        let Some(since) = milliseconds(self.told.unwrap_or(start), now) else {
            return;
        };
        let Some(elapsed) = milliseconds(start, now) else {
            return;
        };
        if elapsed == 0 || !is_due(since) {
            return;
        }
        let line = ProgressLine {
            path: self.path.as_str(),
            done: self.done,
            size: self.size,
            left: seconds_left(self.done, self.size, elapsed),
        };
        let _ = self.rt.eprint(format_args!("\r{line}\u{1b}[K"));
        self.told = Some(now);
    }
}

impl<R: Eprint + Clock> Drop for ReadProgress<'_, R> {
    fn drop(self) {
        let ReadProgress {
            rt,
            path: _,
            size: _,
            done: _,
            looked: _,
            start: _,
            told,
        } = self;
        if told.is_some() {
            let _ = rt.eprint("\r\u{1b}[K");
        }
    }
}

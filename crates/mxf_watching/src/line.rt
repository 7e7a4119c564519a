//! The line that says how far a piece has been read.
use std::fmt;

/// A number of bytes, in gigabytes with one decimal.
#[derive(Clone, Copy)]
struct Gigabytes(u64);

impl fmt::Display for Gigabytes {
    ghost use Rattle.std.specs.Prelude.{Some};
    ghost use Rattle.mxf_watching.specs.Progress.{gigabytes};

    ghost output = { λ g. Some (gigabytes g.0) };

    #[tactic(auto, unfolding(crate::specs::Progress::gigabytes))]
    fn fmt<W: fmt::Write>(&self, f: &mut fmt::Formatter<W>) -> fmt::Result {
        let whole = self.0 / 1_000_000_000;
        let tenth = self.0 / 100_000_000 % 10;
        write!(f, "{whole}.{tenth}")
    }
}

/// A number of seconds, in minutes from one minute on.
#[derive(Clone, Copy)]
struct TimeText(u128);

impl fmt::Display for TimeText {
    ghost use Rattle.std.specs.Prelude.{Some};
    ghost use Rattle.mxf_watching.specs.Progress.{time_text};

    ghost output = { λ t. Some (time_text t.0) };

    #[tactic(auto, unfolding(crate::specs::Progress::time_text))]
    fn fmt<W: fmt::Write>(&self, f: &mut fmt::Formatter<W>) -> fmt::Result {
        let seconds = self.0;
        if seconds < 60 {
            write!(f, "{seconds} s")
        } else {
            let minutes = seconds / 60;
            write!(f, "{minutes} min")
        }
    }
}

/// The line of a piece at `path`: that many bytes of its size were read, and that many seconds are left.
#[derive(Clone, Copy)]
pub struct ProgressLine<'a> {
    pub path: &'a str,
    pub done: u64,
    pub size: u64,
    pub left: u128,
}

impl fmt::Display for ProgressLine<'_> {
    ghost use Rattle.std.specs.Prelude.{Some};
    ghost use Rattle.mxf_watching.specs.Progress.{progress_line};

    ghost output = { λ l. Some (progress_line l.path.now l.done l.size l.left) };

    #[tactic(auto, unfolding(crate::specs::Progress::progress_line))]
    fn fmt<W: fmt::Write>(&self, f: &mut fmt::Formatter<W>) -> fmt::Result {
        let ProgressLine {
            path,
            done,
            size,
            left,
        } = *self;
        let done = Gigabytes(done);
        let size = Gigabytes(size);
        let left = TimeText(left);
        write!(f, "reading {path}: {done} of {size} GB, {left} left")
    }
}

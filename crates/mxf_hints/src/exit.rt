//! How a run of the program ends.
ghost use Rattle.std.specs.Prelude.{◌≡◌};
ghost use Rattle.mxf_hints.specs.Exits.{exit_of_disputes, exit_of_join, is_noted, status_of};
ghost use Rattle.std.specs.List.{list_all};

use mxf_klv::Stop;
use mxf_read::PieceReport;

/// How a run ended, and with which exit status.
#[derive(Clone, Copy)]
pub enum Exit {
    /// All was printed; also help.
    Done,
    /// All was printed, and something was found: a finding, or a piece that doesn't end with a packet; something to
    /// restore; a strict join or renewal with bytes after a stop or disputed notes; an edit unit without a place or
    /// with several, or one that is neither held whole nor at hand; a disputed note; a packet that differs, or not all
    /// verified that is asked for; a fragment that isn't found in one recording alone. Or nothing was saved, since no
    /// note is to be kept, or the renewal is by another recording.
    Found,
    /// The arguments were refused, or one names no source.
    Usage,
    /// A source couldn't be opened or read.
    Unread,
    /// The file of a catalogue was refused or is too long.
    Refused,
    /// Out of memory.
    NoMemory,
    /// A write failed, or the file to write couldn't be made.
    Unwritten,
}

impl Exit {
    /// How a join or a renewal ends that would end so: a strict one finds something if a piece ends otherwise than with
    /// a packet or one that is cut.
    pub fn of_join(self, is_strict: bool, reports: &[PieceReport]) -> Exit
        ensures { result ≡ exit_of_join self is_strict reports.now }
    {
        if is_strict && !are_noted(reports) {
            Exit::Found
        } else {
            self
        }
    }

    /// How a join or a renewal ends that would end so: a strict one finds something if notes are disputed, whose number
    /// this is.
    pub fn of_disputes(self, is_strict: bool, disputed: usize) -> Exit
        ensures { result ≡ exit_of_disputes self is_strict disputed }
    {
        if is_strict && disputed > 0 {
            Exit::Found
        } else {
            self
        }
    }

    /// The exit status of the program.
    pub fn status(self) -> u8
        ensures { result ≡ status_of self }
    {
        match self {
            Exit::Done => 0,
            Exit::Found => 1,
            Exit::Usage => 2,
            Exit::Unread => 3,
            Exit::Refused => 4,
            Exit::NoMemory => 5,
            Exit::Unwritten => 6,
        }
    }
}

/// Whether all packets of the pieces are noted.
fn are_noted(reports: &[PieceReport]) -> bool
    ensures { result ≡ list_all (λ r. is_noted r.report.stop) reports.now }
{
    reports.iter().all(|piece| is_noted(piece.report.stop))
}

/// Whether a piece that stops so has no packet after the stop that isn't noted.
fn is_noted(stop: Stop) -> bool
    ensures { result ≡ is_noted stop }
{
    matches!(stop, Stop::End | Stop::Truncated(_))
}

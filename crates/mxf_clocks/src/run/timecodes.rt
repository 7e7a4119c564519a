//! The timecodes of runs.
ghost use Rattle.std.specs.Prelude.{◌≡◌, ◌<◌, pos, Some};
ghost use Rattle.mxf_tracks.specs.Timecodes.{labels_of_day, timecode_of};
ghost use Rattle.mxf_clocks.specs.RunTimecodes.{last_timecode, timecode_at};

use super::Run;
use mxf_tracks::Timecode;

/// The timecode of a number of a day.
fn timecode_of(number: u64, base: u16, is_drop: bool) -> Option<Timecode>
    requires { number < labels_of_day base is_drop }
    ensures { result ≡ timecode_of (pos number) base is_drop }
{
    Timecode::of(number as i64, base, is_drop)
}

impl Run {
    /// The timecode of a position. None if the run hasn't the position.
    pub fn timecode_at(&self, position: u64) -> Option<Timecode>
        ensures { result ≡ timecode_at self.now position }
    {
        let number = self.number_at(position)?;
        timecode_of(number, self.base, self.is_drop)
    }

    /// The timecode of the first position.
    pub fn first(&self) -> Timecode
        ensures { Some result ≡ timecode_of (pos self.now.number) self.now.base self.now.is_drop }
    {
        match timecode_of(self.number, self.base, self.is_drop) {
            Some(timecode) => timecode,
            None => unreachable!(),
        }
    }

    /// The timecode of the last position. None if the run has no end.
    pub fn last(&self) -> Option<Timecode>
        ensures { result ≡ last_timecode self.now }
    {
        let last = self.count?.saturating_sub(1);
        timecode_of(self.number_after(last), self.base, self.is_drop)
    }
}

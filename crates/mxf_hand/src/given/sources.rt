//! Sources that are read at any position.
ghost use Rattle.std.specs.Prelude.{◌≡◌, ◌<◌, List, Option, None, length};
ghost use Rattle.mxf_hand.specs.Given.{ReadsAt, SourceParts};

use mxf_read::Step;

/// Sources whose bytes can be read again, at any position. They have numbers, from 0 on.
pub trait Sources {
    // What they give, if that is known.
    ghost told: { Self → Option (List SourceParts) } = { λ _. None };

    /// Reads once of the source with this number, after its first `position` bytes, as many bytes at most as there is
    /// room.
    fn read_at(&mut self, source: usize, position: u64, room: &mut [u8]) -> Step
        requires { 0 < length room.old }
        ensures told { told self.new ≡ told self.old }
        ensures bytes { ReadsAt (told self.old) source position room.new result };
}

//! Writing values with a count of the bytes that the writer took.
ghost use Rattle.std.specs.Prelude.{ℕ, List};
ghost use Rattle.mxf_klv.specs.Written.{Puts, Writes};

mod progress;

pub use progress::Progress;
use std::io::Write;
use thiserror::Error;

/// The writer failed: exactly the first `written` bytes of the value's bytes were written.
#[derive(Clone, Copy, Debug, PartialEq, Eq, Error)]
#[error("the writer failed after {written} bytes")]
pub struct WriteFault {
    pub written: u64,
}

/// A value that is written as bytes.
pub trait Encode {
    // The bytes that stand for the value.
    ghost encoding: { Self → List ℕ };

    /// Writes the value's bytes as the next part of a larger value.
    fn put_to<W: Write>(&self, progress: &mut Progress, writer: &mut W) -> Result<(), WriteFault>
        ensures { Puts W.contents writer.old writer.new progress.old progress.new result (encoding self.now) };

    /// Writes the value's bytes.
    ///
    /// Fails if the writer fails, takes no byte, or is interrupted more than 1,024 times.
    fn write_to<W: Write>(&self, writer: &mut W) -> Result<(), WriteFault>
        ensures { Writes (W.contents writer.old) (W.contents writer.new) result (encoding self.now) }
    {
        self.put_to(&mut Progress::new(), writer)
    }
}

//! How a run ends that printed an answer.
ghost use Rattle.std.specs.Prelude.{◌≡◌};
ghost use Rattle.mxf_tool.specs.Answered.{exit_of_answer};

use mxf_hints::Exit;
use mxf_lines::AnswerFault;

/// How a run ends that printed an answer: by the answer's status or its fault, and by whether all that was printed
/// has been flushed.
pub fn exit_of_answer(answered: Result<u8, AnswerFault>, is_flushed: bool) -> Exit
    ensures { result ≡ exit_of_answer answered is_flushed }
{
    match answered {
        Err(AnswerFault::OutOfMemory) => Exit::NoMemory,
        Err(AnswerFault::BadUnit) => Exit::Usage,
        Err(AnswerFault::Write(_)) => Exit::Unwritten,
        Ok(_) if !is_flushed => Exit::Unwritten,
        Ok(0) => Exit::Done,
        Ok(_) => Exit::Found,
    }
}

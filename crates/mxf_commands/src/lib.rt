//! The command line of the program (this project's profile): which commands and options there are, what their help
//! says, and what their words ask for.
//!
//! [`command`] has all subcommands. What its matches ask for is a [`Request`](mxf_asked::Request) ([`request_of`]). The
//! words that name sources may stand in a list too, a line each ([`all_words`]).
//!
//! What is proved: the words of a list are its lines that aren't empty, after the words that are named. What help says
//! and what is taken is tested.
#![tactic(auto)]

mod arguments;
mod command_line;
mod listed;
mod request;

pub use arguments::unreadable_argument;
pub use command_line::command;
pub use listed::{BadLine, all_words, text_of};
pub use request::{UnitRefusal, hints_of, request_of, signed_number, units_of};

//! The command line: the program's command with its subcommands.

/// A help with what a source is, after the text that it begins with, if any, and before the one that it ends with. It
/// says which words stand for a source, what is read if its first byte lies inside a packet, and what writes a
/// catalogue.
macro_rules! source_help {
    ($end:literal) => {
        source_help!(; "SRC", "it", "join or renew", $end)
    };
    ($begin:literal; $end:literal) => {
        source_help!($begin; "SRC", "it", "join or renew", $end)
    };
    ($($begin:literal)?; $words:literal, $read:literal, $writers:literal, $end:literal) => {
        concat! {
            $($begin, "\n\n",)? "A source ", $words, " is one of
  at:OFFSET:PATH     a piece: the bytes of the file PATH, whose first byte lies at byte OFFSET of the recording
  range:OFFSET:PATH  the same, but the first byte may lie inside a packet: ", $read, " is read from the next one on
  slice:OFFSET:LENGTH:PATH
                     a piece: LENGTH bytes of the file PATH from byte OFFSET on, which lie there in the recording too
  cat:PATH           a catalogue that ", $writers, " wrote

", $end
        }
    };
}

mod beside;
mod content;
mod edit_units;
mod map;
mod options;
mod plan;
mod saving;

use clap::Command;
use std::alloc::{AllocError, Global};

/// What the help of the program ends with.
const HELP: &str = source_help!("Example: mxf_tool check at:0:clip.mxf");

/// The program's command with its subcommands.
pub fn command<'a>(alloc: Global) -> Result<Command<'a>, AllocError> {
    let subcommands = subcommands(alloc)?;
    let tool = Command::new(alloc, "mxf_tool")
        .about("Prints and keeps the structure of MXF files, or of parts of them")
        .version("1.3.0-dev")
        .after_help(HELP)
        .subcommand_required(true)
        .arg_required_else_help(true);
    tool.subcommands(subcommands)
}

/// The subcommands, in the order of the help.
fn subcommands<'a>(alloc: Global) -> Result<Vec<Command<'a>>, AllocError> {
    let mut all = Vec::new(alloc);
    content::add(alloc, &mut all)?;
    edit_units::add(alloc, &mut all)?;
    plan::add(alloc, &mut all)?;
    map::add(alloc, &mut all)?;
    beside::add(alloc, &mut all)?;
    saving::add(alloc, &mut all)?;
    Ok(all)
}

//! The subcommand that draws what is held: `map`.
use super::options::{CommandOption, FLAG, Rule, SKIM, Subcommand, Takes, put};
use clap::Command;
use clap::builder::ValueParser;
use std::alloc::{AllocError, Global};

/// What the help of `map` ends with.
const MAP_HELP: &str = source_help!(
    "Each character is a cell of as many bytes, what fits first:
  !  disputed         H F B R  a header, footer or body partition, or a random index pack begins
  o  a named place that isn't held   ~  nothing is held, some of it is at hand in a range
  .  nothing is held or at hand      +  some of it is held
  m  all held, header metadata       i  all held, index   #  all held

With --extents a line for each range of bytes that stand alike, behind the rows: extent START END WORD, the word being
disputed, held, hand or missing.";
    "Example: mxf_tool map --columns 100 cat:clip.cat"
);

/// The subcommand that draws what is held.
const MAP: Subcommand = Subcommand {
    name: "map",
    about: "Prints what is held of the recording, as a picture",
    help: MAP_HELP,
    options: &[EXTENTS, SKIM, COLUMNS, ROWS],
};

const EXTENTS: CommandOption = CommandOption {
    name: "extents",
    help: "Prints too from where to where bytes are in dispute, held, at hand or missing",
    ..FLAG
};

const COLUMNS: CommandOption = CommandOption {
    name: "columns",
    takes: CELLS,
    rule: Rule::Optional,
    help: "How many cells a row has, 1 to 1000; 64 if it isn't given",
};

const ROWS: CommandOption = CommandOption {
    name: "rows",
    takes: CELLS,
    rule: Rule::Optional,
    help: "How many rows there are at most, 1 to 1000; 16 if it isn't given",
};

/// A number of cells.
const CELLS: Takes = Takes::Value("N", ValueParser::Signed(1, 1000));

/// Puts the subcommand behind others.
pub fn add<'a>(alloc: Global, to: &mut Vec<Command<'a>>) -> Result<(), AllocError> {
    put(alloc, to, &[MAP])
}

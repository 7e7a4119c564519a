//! The subcommands that print where edit units lie: `locate` and `units`.
use super::options::{
    CommandOption, FROM, INDEX_OF_UNITS, NUMBER, Rule, SKIM, Subcommand, TIMECODE, TO, Takes, put,
};
use clap::Command;
use clap::builder::ValueParser;
use std::alloc::{AllocError, Global};

/// What the help of `locate` ends with.
const LOCATE_HELP: &str = source_help!(
    "Example: mxf_tool locate --index 1 --unit 250 at:0:clip.mxf"
);

/// What the help of `units` ends with.
const UNITS_HELP: &str = source_help!(
    "Each unit is one of
  held  hand                      it lies from START up to END: all of it is held, or the rest is at hand, in a range
  part  missing  disputed         the same: some or none of it is held or at hand, or it is held in two readings
  elsewhere                       it would end after its partition
  unsure                          a partition that isn't known may lie before it
  unknown                         the first packet of essence of its partition isn't known
  no-partition  several           no partition of its stream is held that begins before it, or more than one does
  not-indexed  ambiguous          no segment of the index that is held has it, or segments disagree";
    "Without --from the first is unit 0, without --to the last is that of the index: the last to which a segment that is held
gives a place. An index of units of one size has none if a segment states the duration 0.

A timecode is HH:MM:SS:FF as describe prints it in lines clock; with ';' before FF, in quotes, it is one of drop frame
alone. All that is shown from the one of --from up to the one of --to lies in the units that are printed, and at TIMECODE
ends the line of each: that of the picture stored in it.

Examples: mxf_tool units --from 250 --to 274 cat:clip.cat
          mxf_tool units --from 10:00:10:00 --to 10:00:10:24 cat:clip.cat"
);

/// The subcommand that prints where an edit unit begins in its stream.
const LOCATE: Subcommand = Subcommand {
    name: "locate",
    about: "Prints where an edit unit begins in its essence stream",
    help: LOCATE_HELP,
    options: &[INDEX, UNIT, SKIM],
};

/// The subcommand that prints where edit units lie in the file.
const UNITS: Subcommand = Subcommand {
    name: "units",
    about: "Prints where edit units lie in the file, and which of them are held",
    help: UNITS_HELP,
    options: &[INDEX_OF_UNITS, FROM, TO, TIMECODE, SKIM],
};

const INDEX: CommandOption = CommandOption {
    name: "index",
    takes: NUMBER,
    rule: Rule::Required,
    help: "The IndexSID of the index table",
};

const UNIT: CommandOption = CommandOption {
    name: "unit",
    takes: Takes::Value("N", ValueParser::Unsigned(0, 9_223_372_036_854_775_807)),
    rule: Rule::Required,
    help: "The edit unit, counted from 0",
};

/// Puts these subcommands behind others.
pub fn add<'a>(alloc: Global, to: &mut Vec<Command<'a>>) -> Result<(), AllocError> {
    put(alloc, to, &[LOCATE, UNITS])
}

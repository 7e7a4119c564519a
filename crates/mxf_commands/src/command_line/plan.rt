//! The subcommand that prints what to restore: `plan`.
use super::options::{FROM, INDEX_OF_UNITS, SKIM, Subcommand, TO, put};
use clap::Command;
use std::alloc::{AllocError, Global};

/// What the help of `plan` ends with.
const PLAN_HELP: &str = source_help!(
    "With --index, --from or --to only what edit units need is ordered: their bytes, those of their key frames, and what says
where they lie. Without --from the first is unit 0, without --to the last is that of the index. The last line says how
many of them are held or at hand, as units does.

A timecode is HH:MM:SS:FF as describe prints it in lines clock; with ';' before FF, in quotes, it is one of drop frame
alone. As long as no copy of the header metadata tells the timecodes, one is ordered, and no line says units.";
    "Hand in what is restored at START as at:START:PATH, or, if the order says inside, as range:START:PATH. One that says
again was handed in already: its bytes are damaged, or two sources differ there. Then ask again, until nothing is ordered.

Status 0 says that nothing is ordered, and that all bytes of each unit are held or at hand that is asked for.

Examples: mxf_tool plan range:62914560:part.bin cat:earlier.cat
          mxf_tool plan --from 10:00:10:00 --to 10:00:10:24 range:62914560:part.bin cat:earlier.cat"
);

/// The subcommand that prints what to restore.
const PLAN: Subcommand = Subcommand {
    name: "plan",
    about: "Prints which bytes to restore next, what helps most first",
    help: PLAN_HELP,
    options: &[INDEX_OF_UNITS, SKIM, FROM, TO],
};

/// Puts the subcommand behind others.
pub fn add<'a>(alloc: Global, to: &mut Vec<Command<'a>>) -> Result<(), AllocError> {
    put(alloc, to, &[PLAN])
}

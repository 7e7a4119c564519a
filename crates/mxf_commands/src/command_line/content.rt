//! The subcommands that print what the recording is, what sources hold, and what is wrong in it: `describe`, `show` and
//! `check`.
use super::options::{CommandOption, FLAG, SKIM, Subcommand, put};
use clap::Command;
use std::alloc::{AllocError, Global};

/// What the help of `describe` ends with.
const DESCRIBE_HELP: &str = source_help!("Example: mxf_tool describe at:0:clip.mxf");

/// What the help of `show` ends with.
const SHOW_HELP: &str = source_help!("Example: mxf_tool show at:0:clip.mxf");

/// What the help of `check` ends with.
const CHECK_HELP: &str = source_help!(
    "Example: mxf_tool check at:0:front.bin at:62914560:rest.bin"
);

/// The subcommand that prints what the recording is.
const DESCRIBE: Subcommand = Subcommand {
    name: "describe",
    about: "Prints what the recording is: packages, tracks, durations, timecodes, picture and sound",
    help: DESCRIBE_HELP,
    options: &[SKIM],
};

/// The subcommand that prints what sources hold.
const SHOW: Subcommand = Subcommand {
    name: "show",
    about: "Prints what the sources hold together",
    help: SHOW_HELP,
    options: &[SKIM],
};

/// The option that prints what is in doubt, too.
const DOUBTS: CommandOption = CommandOption {
    name: "doubts",
    help: "Prints behind the findings what is in doubt: what ordinary writers don't write, and damage does",
    ..FLAG
};

/// The subcommand that prints what is wrong or missing.
const CHECK: Subcommand = Subcommand {
    name: "check",
    about: "Prints what is wrong or missing in what the sources hold together",
    help: CHECK_HELP,
    options: &[DOUBTS, SKIM],
};

/// Puts these subcommands behind others.
pub fn add<'a>(alloc: Global, to: &mut Vec<Command<'a>>) -> Result<(), AllocError> {
    put(alloc, to, &[DESCRIBE, SHOW, CHECK])
}

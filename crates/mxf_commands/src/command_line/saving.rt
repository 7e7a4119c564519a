//! The subcommands that save a catalogue: `join` and `renew`.
use super::options::{CommandOption, FLAG, Rule, SKIM, Subcommand, Takes, put};
use clap::Command;
use clap::builder::ValueParser;
use std::alloc::{AllocError, Global};

/// What the help of `join` ends with.
const JOIN_HELP: &str = source_help!(
    "A file at PATH is replaced if it is a catalogue or empty. Any other stays as it is, and so does each one if no packet is
there to be kept.";
    "Example: mxf_tool join --out clip.cat at:0:front.bin cat:earlier.cat"
);

/// What the help of `renew` ends with.
const RENEW_HELP: &str = source_help!(
    "What SRC.. hold is the newer: a packet of --old is dropped that one of SRC.. contradicts, since both hold a byte
and differ. All others are kept. Each is printed that was dropped.

Nothing is saved if all partition packs of one SRC say that its OFFSET is wrong, by the same number of bytes; nor if more
packets of essence are dropped than SRC.. have of those of --old, since they are of another recording then. --drop saves
all the same.";
    "SRC or SOURCE", "it", "join or renew",
    "Example: mxf_tool renew --out new.cat --old cat:clip.cat at:0:clip.mxf"
);

/// The subcommand that saves what is joined.
const JOIN: Subcommand = Subcommand {
    name: "join",
    about: "Writes the catalogue of what the sources hold together to a file",
    help: JOIN_HELP,
    options: &[OUT, STRICT, DRY_RUN, SKIM],
};

/// The subcommand that saves what is renewed.
const RENEW: Subcommand = Subcommand {
    name: "renew",
    about: "Writes a catalogue of earlier sources, renewed by newer ones, to a file",
    help: RENEW_HELP,
    options: &[OUT, STRICT, DRY_RUN, OLD, DROP],
};

const OUT: CommandOption = CommandOption {
    name: "out",
    takes: Takes::Value("PATH", ValueParser::String),
    rule: Rule::Required,
    help: "The file to write: a catalogue or an empty file there is replaced whole or, at a fault, left as it was",
};

const STRICT: CommandOption = CommandOption {
    name: "strict",
    help: "Ends with status 1 if a piece ends neither with a packet nor with one that is cut, or packets are in dispute",
    ..FLAG
};

const DRY_RUN: CommandOption = CommandOption {
    name: "dry-run",
    help: "Prints what it would print, and writes nothing",
    ..FLAG
};

const OLD: CommandOption = CommandOption {
    name: "old",
    takes: Takes::Values("SOURCE"),
    rule: Rule::Required,
    help: "An earlier source, as SRC; it may be given more than once",
};

const DROP: CommandOption = CommandOption {
    name: "drop",
    help: "Saves whatever is dropped, and whatever OFFSET partition packs say",
    ..FLAG
};

/// Puts these subcommands behind others.
pub fn add<'a>(alloc: Global, to: &mut Vec<Command<'a>>) -> Result<(), AllocError> {
    put(alloc, to, &[JOIN, RENEW])
}

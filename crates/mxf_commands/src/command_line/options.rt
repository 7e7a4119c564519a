//! What a subcommand is made of, and what several take: sources, lists, forms, edit units.
use clap::builder::ValueParser;
use clap::{Arg, ArgAction, Command};
use std::alloc::{AllocError, Global};

/// A subcommand.
#[derive(Clone, Copy)]
pub struct Subcommand {
    pub name: &'static str,
    /// What it does.
    pub about: &'static str,
    /// What its help ends with.
    pub help: &'static str,
    /// What it takes besides sources, the form of its lines, and when it prints hints.
    pub options: &'static [CommandOption],
}

/// An option of a subcommand.
#[derive(Clone, Copy)]
pub struct CommandOption {
    pub name: &'static str,
    pub takes: Takes,
    pub rule: Rule,
    pub help: &'static str,
}

/// What an option takes.
#[derive(Clone, Copy)]
pub enum Takes {
    /// Nothing.
    Nothing,
    /// A value, which help calls so.
    Value(&'static str, ValueParser<'static>),
    /// A value each time that it is given, which help calls so.
    Values(&'static str),
}

/// Whether an option has to be given.
#[derive(Clone, Copy)]
pub enum Rule {
    /// It may be left out.
    Optional,
    /// It has to be given.
    Required,
    /// It has to be given unless the option of this name is.
    RequiredUnless(&'static str),
    /// It may be given only with an option of the group of this name.
    Requires(&'static str),
}

/// A number of 32 bits.
pub const NUMBER: Takes = Takes::Value("N", ValueParser::Signed(0, 4_294_967_295));

/// An option that takes nothing and may be left out.
pub const FLAG: CommandOption = CommandOption {
    name: "",
    takes: Takes::Nothing,
    rule: Rule::Optional,
    help: "",
};

/// The option that passes over what the container holds.
pub const SKIM: CommandOption = CommandOption {
    name: "skim",
    help: "Reads no essence: what a container holds is passed over, and not digested",
    ..FLAG
};

/// The option that names the index table whose edit units are asked for.
pub const INDEX_OF_UNITS: CommandOption = CommandOption {
    name: "index",
    takes: NUMBER,
    rule: Rule::Optional,
    help: "The IndexSID of the index table of the edit units; may be left out if only one is meant",
};

/// The option that names the first edit unit that is asked for.
pub const FROM: CommandOption = CommandOption {
    name: "from",
    takes: Takes::Value("N", ValueParser::String),
    rule: Rule::Optional,
    help: "The first edit unit, a number counted from 0 as they are stored, or a timecode; 0 if it isn't given",
};

/// The option that names the last edit unit that is asked for.
pub const TO: CommandOption = CommandOption {
    name: "to",
    takes: Takes::Value("N", ValueParser::String),
    rule: Rule::Optional,
    help: "The last edit unit, at most 999999 after the first, or a timecode; the last of the index if it isn't given",
};

/// The option that tells the timecodes of edit units.
pub const TIMECODE: CommandOption = CommandOption {
    name: "timecode",
    help: "Prints the timecodes that the edit units show; meant if --from or --to is one",
    ..FLAG
};

/// What each subcommand takes behind its own options and SRC.
const OF_ALL: &[CommandOption] = &[
    CommandOption {
        name: "sources",
        takes: Takes::Value("FILE", ValueParser::String),
        rule: Rule::Optional,
        help: "A file with further sources, one a line; - is standard input",
    },
    CommandOption {
        name: "json",
        help: "Prints each line as a JSON object",
        ..FLAG
    },
    CommandOption {
        name: "hints",
        takes: Takes::Value("WHEN", ValueParser::Names(&["auto", "always", "never"])),
        rule: Rule::Optional,
        help: "When hints follow what is printed on standard error: auto is on a terminal alone",
    },
];

/// Puts the subcommands behind others.
pub fn put<'a>(
    alloc: Global,
    to: &mut Vec<Command<'a>>,
    subcommands: &[Subcommand],
) -> Result<(), AllocError> {
    for subcommand in subcommands {
        to.push(command_of(alloc, subcommand)?)?;
    }
    Ok(())
}

/// The subcommand with all that it takes.
pub fn command_of<'a>(alloc: Global, subcommand: &Subcommand) -> Result<Command<'a>, AllocError> {
    let args = args_of(alloc, subcommand.options)?;
    let command = Command::new(alloc, subcommand.name).about(subcommand.about);
    command.after_help(subcommand.help).args(args)
}

/// What a subcommand of these options takes, in the order of its help.
fn args_of<'a>(alloc: Global, options: &[CommandOption]) -> Result<Vec<Arg<'a>>, AllocError> {
    let mut args = Vec::new(alloc);
    push_options(alloc, &mut args, options)?;
    args.push(sources(alloc)?)?;
    push_options(alloc, &mut args, OF_ALL)?;
    Ok(args)
}

/// Puts options behind what a subcommand takes.
fn push_options<'a>(
    alloc: Global,
    args: &mut Vec<Arg<'a>>,
    options: &[CommandOption],
) -> Result<(), AllocError> {
    for option in options {
        args.push(arg_of(alloc, option)?)?;
    }
    Ok(())
}

/// The sources, which are words.
fn sources<'a>(alloc: Global) -> Result<Arg<'a>, AllocError> {
    Arg::new(alloc, "SRC")
        .num_args(1..)
        .action(ArgAction::Append)
        .help("A source: at:OFFSET:PATH, range:OFFSET:PATH, slice:OFFSET:LENGTH:PATH or cat:PATH")
        .required_unless_present("sources")
}

/// The option as an argument of the command line.
fn arg_of<'a>(alloc: Global, option: &CommandOption) -> Result<Arg<'a>, AllocError> {
    let arg = taking(Arg::new(alloc, option.name), option.takes)
        .long(option.name)
        .help(option.help);
    match option.rule {
        Rule::Optional => Ok(arg),
        Rule::Required => Ok(arg.required(true)),
        Rule::RequiredUnless(other) => arg.required_unless_present(other),
        Rule::Requires(group) => arg.requires_arg(group),
    }
}

/// The argument, which takes this.
fn taking<'a>(arg: Arg<'a>, takes: Takes) -> Arg<'a> {
    match takes {
        Takes::Nothing => arg.action(ArgAction::SetTrue),
        Takes::Value(name, parser) => {
            arg.action(ArgAction::Set)
                .value_name(name)
                .value_parser(parser)
        }
        Takes::Values(name) => arg.action(ArgAction::Append).value_name(name),
    }
}

//! The subcommands that look at sources beside others: `sources`, `verify` and `find`.
use super::options::{
    CommandOption, FLAG, FROM, INDEX_OF_UNITS, Rule, Subcommand, TIMECODE, TO, Takes, command_of,
    put,
};
use clap::builder::ValueParser;
use clap::{ArgGroup, Command};
use std::alloc::{AllocError, Global};

/// What the help of `sources` ends with.
const SOURCES_HELP: &str = source_help!(
    "Lines:
  source I notes N alone A disputed D SRC  source I has N packets: A of them no other has, D of them are disputed
  disputed OFFSET KIND WIDTH LENGTH KEY SUM from I I ..  a packet that lies where another does, and who has it
  sources N notes M disputed D  together, N sources have M packets, and D of them are disputed";
    "SRC", "it", "join",
    "Example: mxf_tool sources at:0:copy.mxf cat:clip.cat"
);

/// What the help of `verify` ends with.
const VERIFY_HELP: &str = source_help!(
    "What the sources of --against hold is the reference. The bytes of at:, range: and slice: among SRC.. are read by its
packets, and those of a catalogue among them are set beside them.

Lines:
  stop OFFSET STOP  a piece of --against doesn't end with a packet
  differs I OFFSET KIND WIDTH LENGTH KEY  source I has another packet there; then the edit units that are asked for, or - -
  cut OFFSET KIND WIDTH LENGTH KEY  no source has all bytes of this packet, so it wasn't compared
  unknown START END     the reference says nothing of these bytes
  unverified START END  these bytes of the reference weren't compared
  units FIRST LAST WORD  verified, differs, part, unverified, or as units says why it isn't known where they lie
  verified N of M packets B of T bytes differs D cut C unknown U  the sum, then the units that are asked for

Status 0 says that a packet is the same, none differs, and each piece of --against ends with a packet or with one that is
cut; with --whole also that all of the reference is there and no other byte, or all of the units that are asked for.

Units are asked for by --index, --from and --to, as of units; with timecodes, at TIMECODE TIMECODE ends the lines units.";
    "SRC or SOURCE", "of --against it", "join or renew",
    "Example: mxf_tool verify --against cat:clip.cat --whole at:0:clip.mxf"
);

/// What the help of `find` ends with.
const FIND_HELP: &str = source_help!(
    "Each SRC is a fragment, and is looked for by itself: range:0:PATH are bytes that lie nobody knows where. Each SOURCE of
--in and of --recordings is a recording by itself.

Lines:
  found I K OFFSET N of M heads H SOURCE  recording K has N of the M packets of fragment I, if the bytes of it that the
                                          word calls OFFSET lie at this one; H of them by their lengths alone
  unknown I M           no recording tells where fragment I lies
  fragments N found F   F of N fragments lie in one recording with all their packets, and in no other

Status 0 says that each fragment does.";
    "SRC or SOURCE", "it", "join or renew",
    "Example: mxf_tool find --in cat:monday.cat --in cat:tuesday.cat range:0:fragment.bin"
);

/// The subcommand that looks at sources beside each other.
const SOURCES: Subcommand = Subcommand {
    name: "sources",
    about: "Prints which source holds which packet, where sources disagree",
    help: SOURCES_HELP,
    options: &[],
};

/// The subcommand that compares sources with a reference.
const VERIFY: Subcommand = Subcommand {
    name: "verify",
    about: "Prints whether the sources are as a reference says, packet by packet",
    help: VERIFY_HELP,
    options: &[WHOLE, AGAINST, INDEX_OF_UNITS, FROM, TO, TIMECODE_OF_UNITS],
};

/// The subcommand that looks for fragments in recordings.
const FIND: Subcommand = Subcommand {
    name: "find",
    about: "Prints which recording has the packets of each source, and where they lie in it",
    help: FIND_HELP,
    options: &[WITHIN, RECORDINGS],
};

const WHOLE: CommandOption = CommandOption {
    name: "whole",
    help: "Ends with status 1 if a byte is unverified or unknown; of edit units, if one isn't verified",
    ..FLAG
};

const AGAINST: CommandOption = CommandOption {
    name: "against",
    takes: Takes::Values("SOURCE"),
    rule: Rule::Required,
    help: "A source of the reference, as SRC; it may be given more than once",
};

/// The option that tells the timecodes of the edit units that are asked for.
const TIMECODE_OF_UNITS: CommandOption = CommandOption {
    rule: Rule::Requires("units"),
    ..TIMECODE
};

const WITHIN: CommandOption = CommandOption {
    name: "in",
    takes: Takes::Values("SOURCE"),
    rule: Rule::RequiredUnless("recordings"),
    help: "A source that is a recording by itself, as SRC; it may be given more than once",
};

const RECORDINGS: CommandOption = CommandOption {
    name: "recordings",
    takes: Takes::Value("FILE", ValueParser::String),
    rule: Rule::Optional,
    help: "A file with further recordings, a source a line; - is standard input",
};

/// Puts these subcommands behind others.
pub fn add<'a>(alloc: Global, to: &mut Vec<Command<'a>>) -> Result<(), AllocError> {
    to.push(verify(alloc)?)?;
    put(alloc, to, &[SOURCES, FIND])
}

/// The subcommand that compares sources with a reference, with the group of the options that ask for edit units.
fn verify<'a>(alloc: Global) -> Result<Command<'a>, AllocError> {
    let units = units_asked(alloc)?;
    command_of(alloc, &VERIFY)?.group(units)
}

fn units_asked<'a>(alloc: Global) -> Result<ArgGroup<'a>, AllocError> {
    let asking = ArgGroup::new(alloc, "units").multiple(true);
    asking.arg("index")?.arg("from")?.arg("to")
}

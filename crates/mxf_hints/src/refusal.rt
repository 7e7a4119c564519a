//! What to do about arguments that `clap` refused, told on a terminal.
use crate::filled::write_filled;
use mxf_saving::begins_with_scheme;
use std::fmt;

/// What an argument may have been meant for that was refused.
#[derive(Clone, Copy)]
pub enum RefusalHint<'a> {
    /// `-o`, which other programs have.
    Out,
    /// Another option of one dash.
    Short(&'a str),
    /// A timecode, for the number of an edit unit.
    Timecode(&'a str),
    /// `--unit`, which `locate` alone has.
    Units,
    /// `info`, which other programs have.
    Info,
    /// The path of a file or a source, where a command stands.
    Recording(&'a str),
}

impl<'a> RefusalHint<'a> {
    /// What the first argument that shows it may have been meant for. Before the arguments stands the program's name.
    pub fn of(arguments: &'a [String]) -> Option<RefusalHint<'a>> {
        if let Some(command) = arguments.get(1) {
            if command.as_str() == "info" {
                return Some(RefusalHint::Info);
            }
            if is_path(command) {
                return Some(RefusalHint::Recording(command));
            }
        }
        let is_saving = has_word(arguments, "join") || has_word(arguments, "renew");
        let is_locating = has_word(arguments, "locate");
        let mut before = "";
        for argument in arguments {
            let argument = argument.as_str();
            if is_saving && argument == "-o" {
                return Some(RefusalHint::Out);
            }
            if is_short(argument) {
                return Some(RefusalHint::Short(argument));
            }
            let (option, value) = argument.split_once('=').unwrap_or((before, argument));
            if option == "--unit" && is_timecode(value) {
                return Some(RefusalHint::Timecode(value));
            }
            if option == "--unit" && !is_locating {
                return Some(RefusalHint::Units);
            }
            before = argument;
        }
        None
    }

    /// Its line, and the word for which `{}` stands in it.
    fn text(self) -> (&'static str, &'a str) {
        match self {
            RefusalHint::Out => (
                "hint: name the file to write by --out; '--' before it would make it a source",
                "",
            ),
            RefusalHint::Short(word) => (
                "hint: options are words with two dashes, so {} is none; '--' before it would make it a source",
                word,
            ),
            RefusalHint::Timecode(word) => (
                "hint: an edit unit is counted from 0: which one shows {} says: mxf_tool units --from {} --to {}, with SRC",
                word,
            ),
            RefusalHint::Units => ("hint: name edit units by --from and --to", ""),
            RefusalHint::Info => (
                "hint: what a recording is says: mxf_tool describe at:0:FILE",
                "",
            ),
            RefusalHint::Recording(word) if begins_with_scheme(word) => {
                ("hint: what a recording is says: mxf_tool describe {}", word)
            }
            RefusalHint::Recording(word) => {
                (
                    "hint: what a recording is says: mxf_tool describe at:0:{}",
                    word,
                )
            }
        }
    }
}

/// Whether the word is one of the arguments.
fn has_word(arguments: &[String], word: &str) -> bool {
    for argument in arguments {
        if argument.as_str() == word {
            return true;
        }
    }
    false
}

/// Whether the word may be a path: it has a dot or a slash, as no command has, and is no option.
fn is_path(word: &str) -> bool {
    !word.starts_with("-") && (word.contains(".") || word.contains("/"))
}

/// Whether the word is an option of one dash.
fn is_short(word: &str) -> bool {
    word.starts_with("-") && !word.starts_with("--") && word.len() > 1
}

impl fmt::Display for RefusalHint<'_> {
    fn fmt<W: fmt::Write>(&self, f: &mut fmt::Formatter<W>) -> fmt::Result {
        let (text, word) = self.text();
        write_filled(f, text, word)
    }
}

/// Whether the text is a timecode, as `10:00:00:00` or `10:00:00;00`, or one that was shortened, as `10:00`.
pub fn is_timecode(text: &str) -> bool {
    let mut marks = 0u64;
    for byte in text.bytes() {
        match byte {
            b'0'..=b'9' => {}
            b':' | b';' => marks = marks.saturating_add(1),
            _ => return false,
        }
    }
    (1..=3).contains(&marks)
}

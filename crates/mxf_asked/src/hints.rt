//! When hints are printed.
/// When hints are printed after a fault or an answer.
#[derive(Clone, Copy)]
pub enum Hints {
    /// If standard error is a terminal.
    Auto,
    Always,
    Never,
}

impl Hints {
    /// What the word of `--hints` says; `auto` if it is none of its words.
    pub fn named(word: &str) -> Hints {
        match word {
            "always" => Hints::Always,
            "never" => Hints::Never,
            _ => Hints::Auto,
        }
    }

    /// What `--hints` says among words that aren't taken.
    pub fn among(words: &[String]) -> Hints {
        let mut before = "";
        for word in words {
            let word = word.as_str();
            let (option, value) = word.split_once('=').unwrap_or((before, word));
            if option == "--hints" {
                return Hints::named(value);
            }
            before = word;
        }
        Hints::Auto
    }
}

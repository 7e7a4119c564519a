//! The edit units that are asked for.
ghost use Rattle.std.specs.Prelude.{◌≡◌, ◌||◌, is_some, option_map};
ghost use Rattle.mxf_asked.specs.Units.{is_timecode, timecode_in};

use mxf_timed::UnitBound;

/// The first or the last edit unit that is asked for, and the word that names it.
#[derive(Clone, Copy)]
pub struct NamedUnit<'a> {
    pub bound: UnitBound,
    pub word: &'a str,
}

impl<'a> NamedUnit<'a> {
    /// Whether a timecode names it.
    pub fn is_timecode(self) -> bool
        ensures { result ≡ is_timecode self.entry.bound }
    {
        matches!(self.bound, UnitBound::Timecode(_))
    }
}

/// The edit units that words ask for: from unit 0 if no first one is named, up to the last of the index if no last one
/// is.
#[derive(Clone, Copy)]
pub struct AskedUnits<'a> {
    pub from: Option<NamedUnit<'a>>,
    pub to: Option<NamedUnit<'a>>,
}

impl<'a> AskedUnits<'a> {
    /// Whether a word names one of them.
    pub fn are_named(self) -> bool
        ensures { result ≡ is_some self.entry.from || is_some self.entry.to }
    {
        self.from.is_some() || self.to.is_some()
    }

    /// The first word that is a timecode.
    pub fn timecode(self) -> Option<&'a str>
        ensures { option_map (λ w. w.now) result ≡ timecode_in self.entry }
    {
        match (self.from, self.to) {
            (Some(from), _) if from.is_timecode() => Some(from.word),
            (_, Some(to)) if to.is_timecode() => Some(to.word),
            _ => None,
        }
    }
}

/// Edit units of an index.
#[derive(Clone, Copy)]
pub struct IndexedUnits<'a> {
    /// The IndexSID of the index; the only one that is meant if it is none.
    pub index: Option<u32>,
    pub units: AskedUnits<'a>,
    /// Whether the timecode that each unit shows is told.
    pub with_timecodes: bool,
}

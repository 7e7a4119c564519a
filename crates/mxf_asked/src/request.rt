//! What is to be done, of which sources, and in which form.
use crate::ask::Ask;
use crate::grid::Grid;
use crate::units::IndexedUnits;
use mxf_forms::Form;
use mxf_skim::Scan;

/// What the command line asks for, and in which form, of the sources that words name and a list after them.
#[derive(Clone, Copy)]
pub struct Request<'m, 'a> {
    pub task: Task<'a>,
    /// Whether the values of a container's packets are read.
    pub scan: Scan,
    pub form: Form,
    pub named: NamedSources<'m, 'a>,
    /// The sources beside these: the earlier ones of a renewal, those of a reference, or the recordings in which
    /// fragments are looked for.
    pub beside: NamedSources<'m, 'a>,
}

/// Sources that words name, and a list after them.
#[derive(Clone, Copy)]
pub struct NamedSources<'m, 'a> {
    pub words: Option<&'m [&'a str]>,
    pub list: Option<&'a str>,
}

/// What is to be done.
#[derive(Clone, Copy)]
pub enum Task<'a> {
    /// To print what the sources hold together.
    Tell(Told<'a>),
    /// To print which source holds which note.
    Sources,
    /// To print how sources stand to a reference.
    Verify(Verifying<'a>),
    /// To print in which recordings the sources lie.
    Find,
    /// To save what the sources hold together.
    Join(Saving<'a>),
    /// To save what earlier sources hold together, renewed by the others.
    Renew(Renewing<'a>),
}

/// What is printed of what the sources hold together.
#[derive(Clone, Copy)]
pub enum Told<'a> {
    /// An answer.
    Answer(Ask),
    /// A map, with the ranges of its bytes if they are asked for.
    Map { grid: Grid, with_extents: bool },
    /// Where edit units lie.
    Units(IndexedUnits<'a>),
    /// What to restore for edit units.
    UnitPlan(IndexedUnits<'a>),
}

/// What is asked of a verification: whether all of the reference is to be verified, and which edit units are told.
#[derive(Clone, Copy)]
pub struct Verifying<'a> {
    pub is_whole: bool,
    pub units: Option<IndexedUnits<'a>>,
}

/// Where a catalogue is saved.
#[derive(Clone, Copy)]
pub struct Saving<'a> {
    pub out: &'a str,
    /// Whether the run ends with another status if a piece isn't noted whole, or a note is disputed.
    pub is_strict: bool,
    /// Whether nothing is saved, and only what would be is printed.
    pub is_dry: bool,
}

/// Where a renewed catalogue is saved, and whether earlier notes are dropped without a question.
#[derive(Clone, Copy)]
pub struct Renewing<'a> {
    pub saving: Saving<'a>,
    pub drops: bool,
}

//! Merging catalogues in balance.
ghost use Rattle.std.specs.Prelude.{◌≡◌, ◌++◌, ◌∷◌, [], IfOk, IfNone, MatchOption, OnOk};
ghost use Rattle.mxf_read.specs.Levels.{Adds, EndsAbove, HoldsAll, merged_with};
ghost use Rattle.mxf_read.specs.SkimGathering.{HoldsSkim};

use mxf_catalogue::Catalogue;
use mxf_klv::OutOfMemory;
use mxf_skim::prefer_read;
use mxf_views::Views;
use std::alloc::Global;
use std::marker::Model;

/// Catalogues that wait to be merged, each at least twice as long as the one after it. So each is merged with one of
/// about its length, and merging n notes of any number of catalogues moves each some log n times.
#[derive(Drop)]
pub(super) struct Levels {
    items: Vec<Catalogue>,
}

impl Model for Levels {
    ghost use Rattle.std.specs.Prelude.{List};
    ghost use Rattle.mxf_klv.specs.Parts.{NoteParts};
    ghost use Rattle.mxf_read.specs.Levels.{AreBalanced};

    ghost Value = { List (List NoteParts) };

    ghost view = { λ l. l.items.items };

    ghost invariant = { λ l. AreBalanced l.items.items };
}

impl Levels {
    /// No catalogue.
    pub(super) fn new(alloc: Global) -> Levels
        ensures { result ≡ [] }
    {
        Levels {
            items: Vec::new(alloc),
        }
    }

    /// Adds a catalogue. It is merged with those at the end that aren't twice as long.
    pub(super) fn add(&mut self, catalogue: Catalogue) -> Result<(), OutOfMemory>
        ensures { OnOk result (Adds self.old catalogue self.new) }
    {
        let mut merged = catalogue;
        'levels: while let Some(mut last) = self.pop_below_twice(merged.len()) {
            last.merge(merged)?;
            merged = last;
        }
        self.items.push(merged)?;
        Ok(())
    }

    /// Takes the last catalogue, if half of its length is at most this length.
    fn pop_below_twice(&mut self, length: usize) -> Option<Catalogue>
        ensures taken { MatchOption result (self.new ≡ self.old) (λ last. self.old ≡ self.new ++ last ∷ []) }
        ensures none { IfNone result (EndsAbove self.new length) }
    {
        let last = self.items.last()?;
        if last.len() / 2 > length {
            return None;
        }
        self.items.pop()
    }

    /// The views of the notes of all, which are made once.
    pub(super) fn into_views(self, alloc: Global) -> Result<Views, OutOfMemory>
        ensures { IfOk result (λ views. HoldsAll self views) }
    {
        let catalogue = self.merged(alloc)?;
        catalogue.laws();
        match Views::of(alloc, catalogue) {
            Ok(views) => Ok(views),
            Err(_) => Err(OutOfMemory),
        }
    }

    /// The views of the notes of all, made once, where notes of packets that were read are preferred to those of the
    /// same packets that were passed over.
    pub(super) fn into_skim(self, alloc: Global) -> Result<Views, OutOfMemory>
        ensures { IfOk result (HoldsSkim self) }
    {
        let merged = self.merged(alloc)?;
        merged.laws();
        let catalogue = prefer_read(alloc, merged)?;
        catalogue.laws();
        match Views::of(alloc, catalogue) {
            Ok(views) => Ok(views),
            Err(_) => Err(OutOfMemory),
        }
    }

    /// The notes of all. The shortest are merged first.
    fn merged(self, alloc: Global) -> Result<Catalogue, OutOfMemory>
        ensures { IfOk result (λ notes. notes ≡ merged_with self []) }
    {
        let mut levels = self.items;
        let mut merged = Catalogue::new(alloc);
        'levels: while let Some(mut last) = levels.pop() {
            last.merge(merged)?;
            merged = last;
        }
        Ok(merged)
    }
}

//! The items of the clear sets.
ghost use Rattle.std.specs.Prelude.{◌≡◌, ℕ, List, IfOk, OnOk, length, flat_map, option_and_then};
ghost use Rattle.mxf_klv.specs.Parts.{NoteParts};
ghost use Rattle.mxf_klv.specs.Written.{Puts};
ghost use Rattle.mxf_catalogue.specs.Disputes.{clear_notes};
ghost use Rattle.mxf_views.specs.Labels.{primer_of};
ghost use Rattle.mxf_lines.specs.ItemLines.{AreLabelsIn, item_lines, label_among, label_by_copy, set_lines};
ghost use Rattle.mxf_lines.specs.Printing.{Prints};

use super::AnswerFault;
use super::line::ItemLine;
use super::lines::{Each, Lines, Printer, Series, Then};
use mxf_klv::{Note, OutOfMemory};
use mxf_sets::{Items, PrimerLabels};
use mxf_views::{CopyInfo, Views, set_items};
use std::alloc::Global;
use std::io::Write;

/// The lines of the items of each clear set.
#[derive(Clone, Copy)]
pub struct SetLines<'a>(pub &'a Views);

impl<'a> Lines for SetLines<'a> {
    ghost lines = { λ l. flat_map (set_lines l.0.now) (clear_notes l.0.now) };

    fn print_to<W: Write>(self, printer: &mut Printer, writer: &mut W) -> Result<(), AnswerFault> {
        let mut labels = CopyLabels {
            copy: None,
            labels: None,
        };
        'each: for note in self.0.catalogue().clear() {
            print_set(printer, writer, self.0, &mut labels, note)?;
        }
        Ok(())
    }
}

/// Prints a line for each item of a set, and none if the note has no items.
fn print_set<W: Write>(
    printer: &mut Printer,
    writer: &mut W,
    views: &Views,
    labels: &mut CopyLabels,
    note: &Note,
) -> Result<(), AnswerFault>
    requires { AreLabelsIn views.now labels.old }
    ensures labels { AreLabelsIn views.now labels.new }
    ensures lines { Prints printer.old.fields.form
        (Puts W.contents writer.old writer.new printer.old.progress printer.new.progress)
        result (set_lines views.now note.now) }
    ensures form { OnOk result (printer.new.fields.form ≡ printer.old.fields.form) }
{
    let Some(mut items) = set_items(note) else {
        return Ok(());
    };
    let Some(item) = items.next() else {
        return Ok(());
    };
    labels.turn_to(printer.alloc(), views, &views.copy_with(note))?;
    let offset = note.offset();
    let first = ItemLine {
        offset,
        label: labels.label(item.tag),
        item,
    };
    let others = ItemLines {
        offset,
        views,
        labels,
        left: items,
    };
    Then(first, Each(others)).print_to(printer, writer)
}

/// The lines of the items that are left of the set at an offset, in bytes.
#[derive(Drop)]
struct ItemLines<'a> {
    offset: u64,
    views: &'a Views,
    labels: &'a CopyLabels,
    left: Items<'a>,

    // The labels are those of their copy.
    ghost told: { AreLabelsIn views.now labels.now },
}

impl<'a> Series for ItemLines<'a> {
    type Item = ItemLine<'a>;

    ghost lines_left = { λ s. item_lines s.offset (option_and_then (primer_of s.views.now) s.labels.now.copy) s.left };

    ghost left = { λ s. length s.left };

    fn next_item(&mut self) -> Option<ItemLine<'a>> {
        let item = self.left.next()?;
        Some(ItemLine {
            offset: self.offset,
            label: self.labels.label(item.tag),
            item,
        })
    }
}

/// The labels of a copy, by its primer pack: made once for all of its sets, since sets that follow each other are
/// mostly of one copy.
#[derive(Drop)]
struct CopyLabels {
    copy: Option<CopyInfo>,
    labels: Option<PrimerLabels>,
}

impl CopyLabels {
    /// Puts those of a copy in place of another's.
    fn turn_to(
        &mut self,
        alloc: Global,
        views: &Views,
        copy: &Option<CopyInfo>,
    ) -> Result<(), OutOfMemory>
        requires { AreLabelsIn views.now self.old }
        ensures turned { OnOk result (self.new.copy ≡ copy.now) }
        ensures labels { AreLabelsIn views.now self.new }
    {
        if self.copy == *copy {
            return Ok(());
        }
        let labels = labels_of(alloc, views, copy)?;
        *self = CopyLabels {
            copy: *copy,
            labels,
        };
        Ok(())
    }

    /// The label of a tag.
    fn label(&self, tag: u16) -> Option<[u8; 16]>
        ensures { result ≡ label_among self.now.labels tag }
    {
        self.labels.as_ref()?.label(tag)
    }
}

/// The labels of a copy, none if it has no primer pack.
fn labels_of(
    alloc: Global,
    views: &Views,
    copy: &Option<CopyInfo>,
) -> Result<Option<PrimerLabels>, OutOfMemory>
    ensures { IfOk result (λ labels. (tag : ℕ) → label_among labels tag ≡ label_by_copy views.now copy.now tag) }
{
    let Some(copy) = copy else {
        return Ok(None);
    };
    let Some(primer) = views.primer_of(copy) else {
        return Ok(None);
    };
    let labels = PrimerLabels::of(alloc, &primer)?;
    Ok(Some(labels))
}

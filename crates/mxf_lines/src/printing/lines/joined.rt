//! Lines that are made of others.
ghost use Rattle.std.specs.Prelude.{◌≡◌, ◌++◌, [], ◌∷◌, IfNone, IfSome, length, flat_map};
ghost use Rattle.mxf_lines.specs.Lines.{lines_where};

use super::{Lines, Printer, Series};
use crate::printing::AnswerFault;
use std::io::Write;

/// The lines of the first, and then those of the second.
#[derive(Drop)]
pub struct Then<A, B>(pub A, pub B);

impl<A: Lines + Drop, B: Lines + Drop> Lines for Then<A, B> {
    ghost lines = { λ t. A.lines t.0 ++ B.lines t.1 };

    fn print_to<W: Write>(self, printer: &mut Printer, writer: &mut W) -> Result<(), AnswerFault> {
        let Then(first, second) = self;
        first.print_to(printer, writer)?;
        second.print_to(printer, writer)
    }
}

/// The lines of what is there, none if nothing is.
impl<A: Lines + Drop> Lines for Option<A> {
    ghost lines = { λ o. lines_where A.lines o };

    fn print_to<W: Write>(self, printer: &mut Printer, writer: &mut W) -> Result<(), AnswerFault> {
        match self {
            Some(lines) => lines.print_to(printer, writer),
            None => Ok(()),
        }
    }
}

/// The lines of each item that is left.
#[derive(Drop)]
pub struct Each<S>(pub S);

impl<S: Series + Drop> Lines for Each<S> {
    ghost lines = { λ e. S.lines_left e.0 };

    fn print_to<W: Write>(self, printer: &mut Printer, writer: &mut W) -> Result<(), AnswerFault> {
        let Each(mut series) = self;
        while let Some(item) = series.next_item() {
            item.print_to(printer, writer)?;
        }
        Ok(())
    }
}

/// The items of a slice.
impl<'a, T: Lines + Copy> Series for &'a [T] {
    type Item = T;

    ghost lines_left = { λ s. flat_map T.lines s.now };

    ghost left = { λ s. length s.now };

    fn next_item(&mut self) -> Option<T> {
        take_first(self)
    }
}

/// The first of the items that are left, which is taken of them.
pub fn take_first<'a, T: Copy>(items: &mut &'a [T]) -> Option<T>
    ensures none { IfNone result (items.old.now ≡ []) }
    ensures some { IfSome result (λ first. items.old.now ≡ first ∷ items.new.now) }
{
    let (first, left) = items.split_first()?;
    *items = left;
    Some(*first)
}

/// The items of a slice that are left, lent one by one.
#[derive(Drop)]
pub struct Lent<'r, T>(pub &'r [T]);

impl<'r, T> Lent<'r, T> {
    /// The next item.
    pub fn next(&mut self) -> Option<&'r T>
        ensures none { IfNone result (self.old.0.now ≡ []) }
        ensures some { IfSome result (λ first. self.old.0.now ≡ first.now ∷ self.new.0.now) }
    {
        let (first, left) = self.0.split_first()?;
        self.0 = left;
        Some(first)
    }
}

//! All notes of a catalogue.
ghost use Rattle.std.specs.Prelude.{◌≡◌, ◌∷◌, [], IfSome, MatchOption};
ghost use Rattle.std.specs.Iterator.{YieldsFirstRef, item_count};
ghost use Rattle.mxf_catalogue.specs.Content.{IsContent, union_of};

use mxf_klv::Note;
use std::cmp::Ordering;
use std::marker::Model;

/// The notes of a catalogue that are left, in their order.
#[derive(Drop)]
pub struct Notes<'a> {
    undisputed: &'a [Note],
    disputed: &'a [Note],
}

impl<'a> Model for Notes<'a> {
    ghost use Rattle.std.specs.Prelude.{List};
    ghost use Rattle.mxf_klv.specs.Parts.{NoteParts};
    ghost use Rattle.mxf_catalogue.specs.Content.{IsContent, union_of};

    ghost Value = { List NoteParts };

    ghost view = { λ s. union_of s.undisputed.now s.disputed.now };

    ghost invariant = { λ s. IsContent s.undisputed.now × IsContent s.disputed.now };
}

impl<'a> Notes<'a> {
    pub(super) fn of(undisputed: &'a [Note], disputed: &'a [Note]) -> Notes<'a>
        requires undisputed { IsContent undisputed.now }
        requires disputed { IsContent disputed.now }
        ensures { result ≡ union_of undisputed.now disputed.now }
    {
        Notes {
            undisputed,
            disputed,
        }
    }
}

impl<'a> Iterator for Notes<'a> {
    type Item = &'a Note;

    ghost next_gives = { YieldsFirstRef (λ s. s) };

    ghost remaining = { item_count (λ s. s) };

    fn next(&mut self) -> Option<&'a Note> {
        let (first, undisputed, disputed) = split_first(self.undisputed, self.disputed)?;
        self.undisputed = undisputed;
        self.disputed = disputed;
        Some(first)
    }
}

/// The first note of two contents, and what they have left without it.
fn split_first<'a>(
    left: &'a [Note],
    right: &'a [Note],
) -> Option<(&'a Note, &'a [Note], &'a [Note])>
    requires left { IsContent left.now }
    requires right { IsContent right.now }
    ensures first { MatchOption result (union_of left.now right.now ≡ [])
        (λ s. union_of left.now right.now ≡ s.0.now ∷ union_of s.1.now s.2.now) }
    ensures rest { IfSome result (λ s. IsContent s.1.now × IsContent s.2.now) }
{
    let Some((a, after_a)) = left.split_first() else {
        let (b, after_b) = right.split_first()?;
        return Some((b, left, after_b));
    };
    let Some((b, after_b)) = right.split_first() else {
        return Some((a, after_a, right));
    };
    match a.cmp(b) {
        Ordering::Less => Some((a, after_a, right)),
        Ordering::Equal => Some((a, after_a, after_b)),
        Ordering::Greater => Some((b, left, after_b)),
    }
}

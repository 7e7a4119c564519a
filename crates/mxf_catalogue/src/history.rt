//! Histories of calls: what any order of them leaves. The calls are `new`, `add`, `join`, `merge` and `read` of
//! [`Catalogue`](crate::Catalogue), and in the crates above `absorb` and `absorb_from` of a piece, whole or cut by a
//! refused growth of memory or a failed read, `Views::of` and `into_catalogue`.
//!
//! Each call that takes a history on says so by its clause `history`: what it leaves is the content of the history with
//! it. `new` leaves no note, the content of `New`.
ghost use Rattle.std.specs.Prelude.{◌≡◌, ◌↔◌};
ghost use Rattle.mxf_klv.specs.Note.{head_note};
ghost use Rattle.mxf_klv.specs.Parts.{NoteParts};
ghost use Rattle.mxf_klv.specs.Rising.{In};
ghost use Rattle.mxf_catalogue.specs.Content.{AreReduced, IsContent, IsLocated};
ghost use Rattle.mxf_catalogue.specs.History.{History, Add, Hands, HandsSame, content};

/// A law: what a history of calls leaves is a reduced content with exactly the located packets that it was handed: the
/// notes, without the heads that one of these replaces. A note is handed to `add`, in the file that is read, or by a
/// packet or the head of a piece that is absorbed. An `absorb` or `absorb_from` that failed, out of memory or by a
/// failed read, hands the notes of the packets that it counts.
pub fn histories_leave_what_they_were_handed()
    ensures content { (h : History) → IsContent (content h) }
    ensures reduced { (h : History) → AreReduced (content h) }
    ensures members { (h : History) (n : NoteParts) → In n (content h) ↔ IsLocated (Hands h) n }
{}

/// A law: histories that were handed the same notes, in any order and however often, leave equal contents (`equal`).
/// They do so exactly if they were handed the same located packets (`same`): the head of a note that was handed adds
/// nothing (`heads`).
pub fn one_set_one_content()
    ensures equal { (h k : History) → ((n : NoteParts) → Hands h n ↔ Hands k n) → content h ≡ content k }
    ensures same { (h k : History) → HandsSame (Hands h) (Hands k) ↔ (content h ≡ content k) }
    ensures heads { (h : History) (n : NoteParts) → Hands h n → content (Add h (head_note n)) ≡ content h }
{}

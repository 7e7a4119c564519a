//! Findings: what the notes of a file show to be wrong or missing (this project's profile).
ghost use Rattle.std.specs.Prelude.{◌≡◌, ◌↔◌, ◌++◌, [], List, flat_map, length, IfOk, IsTrue, OnOk};
ghost use Rattle.mxf_klv.specs.Parts.{NoteParts};
ghost use Rattle.mxf_klv.specs.Rising.{In, IsRising};
ghost use Rattle.mxf_catalogue.specs.Content.{IsContent};
ghost use Rattle.mxf_findings.specs.declared.finding.Finding.{Finding};
ghost use Rattle.mxf_findings.specs.Codes.{code_number, code_text, finding_cmp};
ghost use Rattle.mxf_findings.specs.Findings.{findings_for, findings_of};
ghost use Rattle.mxf_findings.specs.FindingCauses.{IsFinding};

mod collected;
mod index;
mod metadata;
mod notes;
mod partitions;
pub(crate) mod readable;

use crate::finding::collected::Collected;
use mxf_klv::OutOfMemory;
use mxf_views::Views;
use std::alloc::Global;
use std::cmp::Ordering;
use std::fmt;
use std::marker::Model;

/// A kind of finding.
///
/// A partition is a clear readable partition pack, as in [`Views::partitions`](mxf_views::Views::partitions). A packet
/// is readable if its value is kept and is what its kind says.
#[derive(Clone, Copy, Debug, PartialEq, Eq)]
pub enum Code {
    /// Another note has the offset of a note, which begins there.
    F01 = 1,
    /// A note with another offset shares a byte with a note, which begins there.
    F02,
    /// A gap begins there.
    F03,
    /// A clear partition pack isn't readable.
    F04,
    /// A partition names another offset as its own.
    F05,
    /// The link of a partition is [`Skips`](mxf_views::Link::Skips), [`Missing`](mxf_views::Link::Missing) or
    /// [`Wrong`](mxf_views::Link::Wrong).
    F06,
    /// The status of a footer partition is an open one.
    F07,
    /// A partition names an offset other than 0 as that of the footer partition, and no footer partition stands there.
    F08,
    /// The copy of the header metadata that a partition states has no start, or isn't finished.
    F09,
    /// A clear primer pack, metadata set or raw set isn't readable. A raw set is readable if its value is made up of
    /// items (ST 336, local sets).
    F10,
    /// A clear index table segment isn't readable.
    F11,
    /// A clear random index pack isn't readable; or there is another clear one; or a whole note ends above its end; or
    /// its entries aren't the BodySIDs and the offsets of the partitions, in their order.
    F12,
    /// A set of the preferred copy holds a reference whose target isn't [`Found`](mxf_references::Target::Found): the Preface
    /// holds those to the storage and to the identifications, the storage those to the packages.
    F13,
    /// The chain of the partitions is broken. The offset is 0.
    F14,
}

/// All codes. The number of a code is its place among them, from 1 on.
const CODES: [Code; 14] = [
    Code::F01,
    Code::F02,
    Code::F03,
    Code::F04,
    Code::F05,
    Code::F06,
    Code::F07,
    Code::F08,
    Code::F09,
    Code::F10,
    Code::F11,
    Code::F12,
    Code::F13,
    Code::F14,
];

/// What is found, and where.
#[derive(Clone, Copy, Debug)]
pub struct Finding {
    /// A file offset, in bytes.
    pub offset: u64,
    pub code: Code,
}

impl Code {
    /// What is wrong or missing.
    pub fn text(self) -> &'static str
        ensures { result.now ≡ code_text self }
    {
        match self {
            Code::F01 => "different packets at one offset",
            Code::F02 => "overlapping packets",
            Code::F03 => "bytes not held",
            Code::F04 => "partition pack unreadable",
            Code::F05 => "partition names another offset",
            Code::F06 => "previous partition doesn't fit",
            Code::F07 => "footer marked open",
            Code::F08 => "footer partition not held",
            Code::F09 => "header metadata not whole",
            Code::F10 => "set unreadable",
            Code::F11 => "index segment unreadable",
            Code::F12 => "random index pack doesn't fit",
            Code::F13 => "reference not found",
            Code::F14 => "partition chain not whole",
        }
    }

    /// The number in its name.
    fn number(self) -> u8
        ensures { result ≡ code_number self }
    {
        self as u8
    }
}

/// The name of the code: `F`, and two digits.
impl fmt::Display for Code {
    ghost use Rattle.std.specs.Prelude.{Some};
    ghost use Rattle.mxf_findings.specs.Codes.{code_name};

    ghost output = { λ code. Some (code_name code) };

    fn fmt<W: fmt::Write>(&self, f: &mut fmt::Formatter<W>) -> fmt::Result {
        let number = self.number();
        write!(f, "F{}{}", number / 10, number % 10)
    }
}

impl PartialEq for Finding {
    ghost use Rattle.std.specs.Ordering.{eq_by_cmp};
    ghost use Rattle.std.specs.Cmp.{partial_equiv_from_equiv};
    ghost use Rattle.mxf_findings.specs.Codes.{finding_cmp, finding_equiv};

    ghost eq = { eq_by_cmp finding_cmp };

    ghost laws = { partial_equiv_from_equiv finding_equiv };

    fn eq(&self, other: &Finding) -> bool {
        self.cmp(other) == Ordering::Equal
    }
}

impl Eq for Finding {
    ghost use Rattle.mxf_findings.specs.Codes.{finding_equiv};

    ghost laws = { finding_equiv };
}

impl PartialOrd for Finding {
    ghost use Rattle.std.specs.Ordering.{as_partial_cmp};
    ghost use Rattle.std.specs.Cmp.{partial_order_from_agreeing_total};
    ghost use Rattle.std.specs.Prelude.{refl};
    ghost use Rattle.mxf_findings.specs.Codes.{finding_cmp, finding_total};

    ghost partial_cmp = { as_partial_cmp finding_cmp };

    ghost laws = { partial_order_from_agreeing_total finding_cmp finding_total (λ _ _. refl) (λ _ _. refl) };

    fn partial_cmp(&self, other: &Finding) -> Option<Ordering> {
        Some(self.cmp(other))
    }
}

/// Findings go by offset, then by code.
impl Ord for Finding {
    ghost use Rattle.std.specs.Prelude.{refl};
    ghost use Rattle.mxf_findings.specs.Codes.{finding_cmp, finding_total};

    ghost cmp = { finding_cmp };

    ghost total = { finding_total };

    ghost matches_partial_cmp = { λ _ _. refl };

    ghost matches_eq = { λ _ _. refl };

    fn cmp(&self, other: &Finding) -> Ordering {
        self.offset
            .cmp(&other.offset)
            .then(self.code.number().cmp(&other.code.number()))
    }
}

impl Collected {
    /// Adds what is found of each of the codes.
    fn add_codes(&mut self, alloc: Global, codes: &[Code], views: &Views) -> Result<(), OutOfMemory>
        ensures { OnOk result (self.new ≡ self.old ++ flat_map (λ code. findings_for code views.now) codes.now) }
    {
        for code in codes {
            self.add_code(alloc, *code, views)?;
        }
        Ok(())
    }

    /// Adds what is found of the code.
    fn add_code(&mut self, alloc: Global, code: Code, views: &Views) -> Result<(), OutOfMemory>
        ensures { OnOk result (self.new ≡ self.old ++ findings_for code views.now) }
    {
        match code {
            Code::F01 | Code::F02 => self.add_disputed(code, views),
            Code::F03 => self.add_gaps(views),
            Code::F04 => self.add_packs(views),
            Code::F05 | Code::F06 | Code::F07 | Code::F08 => self.add_partitions(code, views),
            Code::F09 => self.add_copies(views),
            Code::F10 | Code::F11 => self.add_clear(code, views),
            Code::F12 => self.add_random_index(views),
            Code::F13 => self.add_references(alloc, views),
            Code::F14 => self.add_chain(views),
        }
    }
}

/// A set of findings, in their order.
#[derive(Drop)]
pub struct Findings {
    items: Vec<Finding>,
}

impl Model for Findings {
    ghost use Rattle.std.specs.Prelude.{List};
    ghost use Rattle.mxf_klv.specs.Rising.{IsRising};
    ghost use Rattle.mxf_findings.specs.declared.finding.Finding.{Finding};
    ghost use Rattle.mxf_findings.specs.Codes.{finding_cmp};

    ghost Value = { List Finding };

    ghost view = { λ f. f.items.items };

    ghost invariant = { λ f. IsRising finding_cmp f.items.items };
}

impl Findings {
    /// What the notes of the views show, code by code.
    pub(crate) fn of(alloc: Global, views: &Views) -> Result<Findings, OutOfMemory>
        ensures { IfOk result (λ f. f ≡ findings_of views.now) }
    {
        let mut found = Collected::new(alloc);
        found.add_codes(alloc, &CODES, views)?;
        Ok(found.into_findings())
    }

    /// The findings.
    pub fn as_slice(&self) -> &[Finding]
        ensures { result.now ≡ self.now }
    {
        self.items.as_slice()
    }

    /// The number of findings.
    pub fn len(&self) -> usize
        ensures { result ≡ length self.now }
    {
        self.items.len()
    }

    /// Whether nothing is found.
    pub fn is_empty(&self) -> bool
        ensures { IsTrue result ↔ (self.now ≡ []) }
    {
        self.items.is_empty()
    }
}

/// A law of [`findings`](crate::findings): they are those offsets and codes at which the cause of the
/// code is met, and rise, so none stands twice.
pub fn findings_by_definition()
    ensures findings { (notes : List NoteParts) (f : Finding) → IsContent notes
        → In f (findings_of notes) ↔ IsFinding notes f }
    ensures rising { (notes : List NoteParts) → IsRising finding_cmp (findings_of notes) }
{}

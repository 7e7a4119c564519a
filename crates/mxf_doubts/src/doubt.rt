//! Doubts: what damage leaves and ordinary writers don't write (this project's profile).
ghost use Rattle.std.specs.Prelude.{◌≡◌, ◌↔◌, ◌++◌, [], List, flat_map, length, IfOk, IsTrue, OnOk};
ghost use Rattle.mxf_klv.specs.Parts.{NoteParts};
ghost use Rattle.mxf_klv.specs.Rising.{In, IsRising};
ghost use Rattle.mxf_catalogue.specs.Content.{IsContent};
ghost use Rattle.mxf_doubts.specs.declared.doubt.Doubt.{Doubt};
ghost use Rattle.mxf_doubts.specs.Codes.{code_number, code_text, doubt_cmp};
ghost use Rattle.mxf_doubts.specs.Doubts.{doubts_for, doubts_of};

mod asked;
mod collected;
mod header;
mod packets;
mod segments;

use asked::Asked;
use collected::Collected;
use mxf_klv::OutOfMemory;
use mxf_views::Views;
use std::alloc::Global;
use std::cmp::Ordering;
use std::fmt;
use std::marker::Model;

/// A kind of doubt. All speak of clear notes: a disputed one is never in doubt, nor is a head. The number left out, G05, is
/// that of units unlike all others, which isn't asked yet.
///
/// A finished copy is one as in [`Views::copies`](mxf_views::Views::copies), and its zone the bytes that it fills.
#[derive(Clone, Copy, Debug, PartialEq, Eq)]
pub enum Code {
    /// A finished copy of a partition, which begins there, has a set, and not exactly one Preface.
    G01 = 1,
    /// A packet that lies wholly in the zone of a finished copy is strange ([`Keys::is_strange`](crate::Keys::is_strange)); or
    /// the packet is no set, no fill, of a known kind, and not the primer pack at the start of a finished copy.
    G02,
    /// A partition, which begins there, doesn't count its index table segments right. Behind its header metadata and the fills
    /// that follow stands a segment that IndexByteCount doesn't count, or something else than the segments that it counts. Or in
    /// the bytes that it counts lies what is no segment, no fill and no dark data. Or packets fill these bytes, and one goes
    /// on where the bytes end, or another segment begins there, or the readable segments in them are all of other IndexSIDs
    /// than the partition's.
    G03,
    /// The index that is asked of a stream, that of its least IndexSID, puts a unit there: inside of a packet of an essence
    /// container, or of a fill that one follows. It is the first of such units in a row: no earlier unit of the partition is such, or
    /// since the last one that is a packet begins at a unit.
    G04,
    /// A packet that doesn't lie wholly in the zone of a finished copy is strange.
    G06 = 6,
    /// No other packet has the key of an essence element, and no track has the number that the last four bytes of the key
    /// are, although some track has a number.
    G07,
    /// A set has an item that sets of its class don't have ([`is_misfit`](crate::is_misfit)).
    G08,
    /// A set of an orderly copy holds a reference to none of the copy's sets. In an orderly copy each packet is its primer, a
    /// set, a fill, or of no known kind.
    G09,
    /// It is the first set of an orderly copy with an item whose tag is 8000 or above and has not exactly one label in the
    /// copy's primer pack.
    G10,
    /// A segment gives a unit a place at the end of the last part of its stream or behind, while the end of the file is known and
    /// each partition is held that the random index pack lists.
    G11,
}

/// All codes.
const CODES: [Code; 10] = [
    Code::G01,
    Code::G02,
    Code::G03,
    Code::G04,
    Code::G06,
    Code::G07,
    Code::G08,
    Code::G09,
    Code::G10,
    Code::G11,
];

/// What is in doubt, and where.
#[derive(Clone, Copy, Debug)]
pub struct Doubt {
    /// A file offset, in bytes.
    pub offset: u64,
    pub code: Code,
}

impl Code {
    /// What is in doubt.
    pub fn text(self) -> &'static str
        ensures { result.now ≡ code_text self }
    {
        match self {
            Code::G01 => "header metadata without one Preface",
            Code::G02 => "strange packet in header metadata",
            Code::G03 => "index doesn't fit its partition",
            Code::G04 => "no packet where a unit begins",
            Code::G06 => "strange packet",
            Code::G07 => "essence that no track names",
            Code::G08 => "set's key doesn't fit its items",
            Code::G09 => "reference to no set",
            Code::G10 => "item that the primer lacks",
            Code::G11 => "unit behind the essence's end",
        }
    }

    /// The number in its name.
    fn number(self) -> u8
        ensures { result ≡ code_number self }
    {
        self as u8
    }
}
/// The name of the code: `G`, and two digits.
impl fmt::Display for Code {
    ghost use Rattle.std.specs.Prelude.{Some};
    ghost use Rattle.mxf_doubts.specs.Codes.{code_name};

    ghost output = { λ code. Some (code_name code) };

    fn fmt<W: fmt::Write>(&self, f: &mut fmt::Formatter<W>) -> fmt::Result {
        let number = self.number();
        write!(f, "G{}{}", number / 10, number % 10)
    }
}

impl PartialEq for Doubt {
    ghost use Rattle.std.specs.Ordering.{eq_by_cmp};
    ghost use Rattle.std.specs.Cmp.{partial_equiv_from_equiv};
    ghost use Rattle.mxf_doubts.specs.Codes.{doubt_cmp, doubt_equiv};

    ghost eq = { eq_by_cmp doubt_cmp };

    ghost laws = { partial_equiv_from_equiv doubt_equiv };

    fn eq(&self, other: &Doubt) -> bool {
        self.cmp(other) == Ordering::Equal
    }
}

impl Eq for Doubt {
    ghost use Rattle.mxf_doubts.specs.Codes.{doubt_equiv};

    ghost laws = { doubt_equiv };
}

impl PartialOrd for Doubt {
    ghost use Rattle.std.specs.Ordering.{as_partial_cmp};
    ghost use Rattle.std.specs.Cmp.{partial_order_from_agreeing_total};
    ghost use Rattle.std.specs.Prelude.{refl};
    ghost use Rattle.mxf_doubts.specs.Codes.{doubt_cmp, doubt_total};

    ghost partial_cmp = { as_partial_cmp doubt_cmp };

    ghost laws = { partial_order_from_agreeing_total doubt_cmp doubt_total (λ _ _. refl) (λ _ _. refl) };

    fn partial_cmp(&self, other: &Doubt) -> Option<Ordering> {
        Some(self.cmp(other))
    }
}

/// Doubts go by offset, then by code.
impl Ord for Doubt {
    ghost use Rattle.std.specs.Prelude.{refl};
    ghost use Rattle.mxf_doubts.specs.Codes.{doubt_cmp, doubt_total};

    ghost cmp = { doubt_cmp };

    ghost total = { doubt_total };

    ghost matches_partial_cmp = { λ _ _. refl };

    ghost matches_eq = { λ _ _. refl };

    fn cmp(&self, other: &Doubt) -> Ordering {
        self.offset
            .cmp(&other.offset)
            .then(self.code.number().cmp(&other.code.number()))
    }
}

impl Collected {
    /// Adds what is in doubt by each of the codes.
    fn add_codes(
        &mut self,
        alloc: Global,
        codes: &[Code],
        asked: &Asked<'_>,
    ) -> Result<(), OutOfMemory>
        ensures { OnOk result (self.new ≡ self.old ++ flat_map (λ code. doubts_for code asked.now) codes.now) }
    {
        for code in codes {
            self.add_code(alloc, *code, asked)?;
        }
        Ok(())
    }

    /// Adds what is in doubt by the code.
    fn add_code(&mut self, alloc: Global, code: Code, asked: &Asked<'_>) -> Result<(), OutOfMemory>
        ensures { OnOk result (self.new ≡ self.old ++ doubts_for code asked.now) }
    {
        match code {
            Code::G01 => self.add_copies(alloc, asked),
            Code::G02 | Code::G06 | Code::G07 | Code::G08 => self.add_clear(code, asked),
            Code::G03 => self.add_partitions(alloc, asked),
            Code::G04 => self.add_missed(alloc, asked),
            Code::G09 => self.add_unreferred(alloc, asked),
            Code::G10 => self.add_unlabelled(alloc, asked),
            Code::G11 => self.add_behind(alloc, asked),
        }
    }
}

/// A set of doubts, in their order.
#[derive(Drop)]
pub struct Doubts {
    items: Vec<Doubt>,
}

impl Model for Doubts {
    ghost use Rattle.std.specs.Prelude.{List};
    ghost use Rattle.mxf_klv.specs.Rising.{IsRising};
    ghost use Rattle.mxf_doubts.specs.declared.doubt.Doubt.{Doubt};
    ghost use Rattle.mxf_doubts.specs.Codes.{doubt_cmp};

    ghost Value = { List Doubt };

    ghost view = { λ d. d.items.items };

    ghost invariant = { λ d. IsRising doubt_cmp d.items.items };
}

impl Doubts {
    /// What is in doubt of the notes of the views, by file offset and then code, none twice. It takes memory.
    pub fn of(alloc: Global, views: &Views) -> Result<Doubts, OutOfMemory>
        ensures { IfOk result (λ d. d ≡ doubts_of views.now) }
    {
        let asked = Asked::of(alloc, views)?;
        let mut found = Collected::new(alloc);
        found.add_codes(alloc, &CODES, &asked)?;
        Ok(found.into_doubts())
    }

    /// The doubts.
    pub fn as_slice(&self) -> &[Doubt]
        ensures { result.now ≡ self.now }
    {
        self.items.as_slice()
    }

    /// The number of doubts.
    pub fn len(&self) -> usize
        ensures { result ≡ length self.now }
    {
        self.items.len()
    }

    /// Whether nothing is in doubt.
    pub fn is_empty(&self) -> bool
        ensures { IsTrue result ↔ (self.now ≡ []) }
    {
        self.items.is_empty()
    }
}

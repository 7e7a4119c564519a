//! The lines of what records say.
ghost use Rattle.std.specs.Prelude.{◌≡◌, ◌++◌, List, IfOk, codes, string_bytes, option_map};
ghost use Rattle.mxf_forms.specs.Forms.{Field};
ghost use Rattle.mxf_lines.specs.ReferenceLines.{hex_fields, identification_lines, kind_fields, named_word};
ghost use Rattle.mxf_lines.specs.ReferenceLines.{owner_fields, package_details, package_lines, shown_fields};
ghost use Rattle.mxf_lines.specs.ReferenceLines.{product_lines, text_fields, timestamp_fields, property_word};
ghost use Rattle.mxf_lines.specs.ReferenceLines.{tracks_fields, uid_fields, value_line, value_lines};
ghost use Rattle.mxf_lines.specs.ShownText.{shown_value, shown_char, shown_text};
ghost use Rattle.mxf_forms.specs.Writing.{with_fields};

use super::{AllocError, AnswerFault, Line, Lines, Printer, Then, Write};
use mxf_forms::{FieldWriter, HexDigits};
use mxf_klv::{Kind, OutOfMemory};
use mxf_sets::{Identification, Package, TextFault, Timestamp, text};
use std::alloc::Global;
use uuid::Uuid;

/// What a record says under a word, or what a line is of.
pub trait Value {
    // Its fields.
    ghost fields: { Self → List Field };

    /// Writes them.
    fn write_to(&self, to: &mut FieldWriter) -> Result<(), AllocError>
        ensures { IfOk result (λ _. to.new ≡ with_fields (fields self.now) to.old) };
}

impl Value for Uuid {
    ghost fields = { uid_fields };

    fn write_to(&self, to: &mut FieldWriter) -> Result<(), AllocError> {
        to.word(" ", "uid", *self)
    }
}

/// Seven numbers.
impl Value for Timestamp {
    ghost fields = { timestamp_fields };

    fn write_to(&self, to: &mut FieldWriter) -> Result<(), AllocError> {
        to.number(" ", "year", self.year)?;
        to.number(" ", "month", self.month)?;
        to.number(" ", "day", self.day)?;
        to.number(" ", "hour", self.hour)?;
        to.number(" ", "minute", self.minute)?;
        to.number(" ", "second", self.second)?;
        to.number(" ", "quarter", self.milliseconds_by_four)
    }
}

/// The digits of a label, or of the identifier of a package.
impl<const N: usize> Value for [u8; N] {
    ghost fields = { hex_fields };

    fn write_to(&self, to: &mut FieldWriter) -> Result<(), AllocError> {
        to.word(" ", "uid", HexDigits(self))
    }
}

/// How many tracks a package has.
impl Value for usize {
    ghost fields = { tracks_fields };

    fn write_to(&self, to: &mut FieldWriter) -> Result<(), AllocError> {
        to.number(" ", "tracks", *self)
    }
}

/// The word for a package, by the kind of its set.
impl Value for Kind {
    ghost fields = { kind_fields };

    fn write_to(&self, to: &mut FieldWriter) -> Result<(), AllocError> {
        let word = match *self {
            Kind::MaterialPackage => "material",
            _ => "source",
        };
        to.word(" ", "kind", word)
    }
}

impl<'a> Value for &'a str {
    ghost fields = { λ text. text_fields text.now };

    fn write_to(&self, to: &mut FieldWriter) -> Result<(), AllocError> {
        to.word(" ", "text", *self)
    }
}

/// What a record says.
#[derive(Clone, Copy)]
pub enum Property {
    Generation,
    Company,
    Product,
    Version,
    ProductUid,
    Kind,
    PackageUid,
    Modified,
    Name,
    Created,
    Tracks,
    Descriptor,
    TrackName,
}

impl Property {
    /// The word that its line begins with.
    fn word(self) -> &'static str
        ensures { result.now ≡ property_word self }
    {
        match self {
            Property::Generation => "generation",
            Property::Company => "company",
            Property::Product => "product",
            Property::Version => "version",
            Property::ProductUid => "product-uid",
            Property::Kind => "kind",
            Property::PackageUid => "package-uid",
            Property::Modified => "modified",
            Property::Name => "name",
            Property::Created => "created",
            Property::Tracks => "tracks",
            Property::Descriptor => "descriptor",
            Property::TrackName => "track-name",
        }
    }
}

/// What a reference names.
#[derive(Clone, Copy)]
pub enum Named {
    Identification,
    Package,
}

impl Named {
    /// The word for it.
    pub fn word(self) -> &'static str
        ensures { result.now ≡ named_word self }
    {
        match self {
            Named::Identification => "identification",
            Named::Package => "package",
        }
    }
}

/// The set that a record is of: what a reference names, and its identifier.
#[derive(Clone, Copy)]
pub struct Owner {
    pub named: Named,
    pub uid: [u8; 16],
}

/// Its member of JSON.
impl Value for Owner {
    ghost fields = { owner_fields };

    fn write_to(&self, to: &mut FieldWriter) -> Result<(), AllocError> {
        to.word_member(self.named.word(), Uuid::from_bytes(self.uid))
    }
}

/// A value under its word, and what it is of.
#[derive(Clone, Copy)]
struct ValueLine<O, V>(O, Property, V);

impl<O: Value, V: Value> Line for ValueLine<O, V> {
    ghost line = { λ l. value_line (O.fields l.0) (property_word l.1) (V.fields l.2) };

    fn write_fields(&self, fields: &mut FieldWriter) -> Result<(), AllocError> {
        let word = self.1.word();
        fields.begin(word, word)?;
        write_owned(fields, &self.2, &self.0)?;
        fields.end("")
    }
}

/// Writes a value, and what it is of.
pub fn write_owned<O: Value, V: Value>(
    fields: &mut FieldWriter,
    value: &V,
    owner: &O,
) -> Result<(), AllocError>
    ensures { IfOk result (λ _. fields.new ≡ with_fields (V.fields value.now ++ O.fields owner.now) fields.old) }
{
    value.write_to(fields)?;
    owner.write_to(fields)
}

/// A value under its word, if it is there.
#[derive(Clone, Copy)]
pub struct ValueLines<O, V>(pub O, pub Property, pub Option<V>);

impl<O: Value + Copy, V: Value + Copy> Lines for ValueLines<O, V> {
    ghost lines = { λ l. value_lines (O.fields l.0) (property_word l.1) V.fields l.2 };

    fn print_to<W: Write>(self, printer: &mut Printer, writer: &mut W) -> Result<(), AnswerFault> {
        let ValueLines(owner, property, value) = self;
        match value {
            Some(value) => ValueLine(owner, property, value).print_to(printer, writer),
            None => Ok(()),
        }
    }
}

/// A text under its word, given by the value of its item, if it is there.
#[derive(Clone, Copy)]
pub struct TextLines<'a, O>(pub O, pub Property, pub Option<&'a [u8]>);

impl<'a, O: Value + Copy> Lines for TextLines<'a, O> {
    ghost lines = { λ l. value_lines (O.fields l.0) (property_word l.1) shown_fields (option_map (λ v. v.now) l.2) };

    fn print_to<W: Write>(self, printer: &mut Printer, writer: &mut W) -> Result<(), AnswerFault> {
        let TextLines(owner, property, value) = self;
        let Some(value) = value else {
            return Ok(());
        };
        let text = shown_value(printer.alloc(), value)?;
        ValueLine(owner, property, text.as_str()).print_to(printer, writer)
    }
}

/// The lines of an Identification.
#[derive(Clone, Copy)]
pub struct IdentificationLines<'r, 'a>(pub Owner, pub &'r Identification<'a>);

impl<'r, 'a> Lines for IdentificationLines<'r, 'a> {
    ghost lines = { λ i. identification_lines i.0 i.1.now };

    fn print_to<W: Write>(self, printer: &mut Printer, writer: &mut W) -> Result<(), AnswerFault> {
        let IdentificationLines(owner, record) = self;
        let generation = ValueLines(owner, Property::Generation, record.this_generation_uid());
        let company = TextLines(owner, Property::Company, record.company_name());
        let product = ProductLines(owner, record);
        Then(generation, Then(company, product)).print_to(printer, writer)
    }
}

/// The lines of the product that an Identification is of, and of when it was modified.
#[derive(Clone, Copy)]
struct ProductLines<'r, 'a>(Owner, &'r Identification<'a>);

impl<'r, 'a> Lines for ProductLines<'r, 'a> {
    ghost lines = { λ p. product_lines p.0 p.1.now };

    fn print_to<W: Write>(self, printer: &mut Printer, writer: &mut W) -> Result<(), AnswerFault> {
        let ProductLines(owner, record) = self;
        let product = TextLines(owner, Property::Product, record.product_name());
        let version = TextLines(owner, Property::Version, record.version_string());
        let product_uid = ValueLines(owner, Property::ProductUid, record.product_uid());
        let modified = ValueLines(owner, Property::Modified, record.modification_date());
        Then(product, Then(version, Then(product_uid, modified))).print_to(printer, writer)
    }
}

/// The lines of a package, whose set has this kind.
#[derive(Clone, Copy)]
pub struct PackageLines<'r, 'a>(pub Owner, pub Kind, pub &'r Package<'a>);

impl<'r, 'a> Lines for PackageLines<'r, 'a> {
    ghost lines = { λ p. package_lines p.0 p.1 p.2.now };

    fn print_to<W: Write>(self, printer: &mut Printer, writer: &mut W) -> Result<(), AnswerFault> {
        let PackageLines(owner, kind, package) = self;
        let kind = ValueLine(owner, Property::Kind, kind);
        let uid = ValueLine(owner, Property::PackageUid, package.package_uid());
        let name = TextLines(owner, Property::Name, package.name());
        let details = PackageDetails(owner, package);
        Then(Then(kind, uid), Then(name, details)).print_to(printer, writer)
    }
}

/// The dates of a package, how many tracks it has, and its descriptor.
#[derive(Clone, Copy)]
struct PackageDetails<'r, 'a>(Owner, &'r Package<'a>);

impl<'r, 'a> Lines for PackageDetails<'r, 'a> {
    ghost lines = { λ p. package_details p.0 p.1.now };

    fn print_to<W: Write>(self, printer: &mut Printer, writer: &mut W) -> Result<(), AnswerFault> {
        let PackageDetails(owner, package) = self;
        let created = ValueLines(owner, Property::Created, package.creation_date());
        let modified = ValueLines(owner, Property::Modified, package.modified_date());
        let tracks = ValueLine(owner, Property::Tracks, package.tracks().len());
        let descriptor = ValueLines(owner, Property::Descriptor, package.descriptor());
        Then(created, Then(modified, Then(tracks, descriptor))).print_to(printer, writer)
    }
}

/// The character that stands for a character: a question mark for a control character of ASCII.
fn shown_char(c: char) -> char
    ensures { result ≡ shown_char c }
{
    if c.is_ascii_control() { '?' } else { c }
}

/// The text with a question mark for each control character of ASCII.
fn shown_text(alloc: Global, text: &str) -> Result<String, AllocError>
    ensures { IfOk result (λ shown. string_bytes shown ≡ shown_text text.now) }
{
    text.chars().map(|c| shown_char(c)).collect(alloc)
}

/// The text that the value of a text item is, as it is printed.
fn shown_value(alloc: Global, value: &[u8]) -> Result<String, OutOfMemory>
    ensures { IfOk result (λ shown. string_bytes shown ≡ shown_value value.now) }
{
    match text(alloc, value) {
        Ok(text) => Ok(shown_text(alloc, &text)?),
        Err(TextFault::OddLength) => Ok(String::from_str(alloc, "(odd length)")?),
        Err(TextFault::OutOfMemory) => Err(OutOfMemory),
    }
}

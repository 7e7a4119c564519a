//! The fields of a line, written one after another.
ghost use Rattle.std.specs.Prelude.{◌≡◌, [], ◌++◌, IfOk, IfSome, codes, decimal, string_bytes};
ghost use Rattle.std.specs.Char.{encode_utf8};
ghost use Rattle.std.specs.List.{repeat};
ghost use Rattle.mxf_forms.specs.Forms.{Absent, Characters, Fixed, Flag, Number, Numbers, escaped, field, member};
ghost use Rattle.mxf_forms.specs.Forms.{digits_or, number_or, quoted, separated, separated_behind};
ghost use Rattle.mxf_forms.specs.Hexadecimal.{hex_of};
ghost use Rattle.mxf_forms.specs.Writing.{with_end, with_field, with_front};

use crate::form::Form;
use crate::hexadecimal::LabelText;
use itoa::Integer;
use std::alloc::{AllocError, Global};
use std::fmt;
use std::marker::Model;

/// Writes lines in a form, each in the same text. Of a field it takes what stands before it in the text, its name,
/// which JSON has, and its value. Out of memory, the line is begun anew.
pub struct FieldWriter {
    form: Form,
    text: String,
    characters: String,
    label: LabelText,
}

// Written out, a drop is one call wherever a writer is let go.
impl Drop for FieldWriter {
    fn drop(self) {
        let FieldWriter {
            form: _,
            text: _text,
            characters: _characters,
            label: _label,
        } = self;
    }
}

impl Model for FieldWriter {
    ghost use Rattle.std.specs.Prelude.{string_bytes};
    ghost use Rattle.mxf_forms.specs.Writing.{Written};

    ghost Value = { Written };

    ghost view = { λ w. record { form = w.form; text = string_bytes w.text } };
}

impl FieldWriter {
    /// Writes in this form.
    pub fn new(alloc: Global, form: Form) -> FieldWriter
        ensures { result.form ≡ form }
    {
        FieldWriter {
            form,
            text: String::new(alloc),
            characters: String::new(alloc),
            label: LabelText::new(alloc),
        }
    }

    /// What is written of the line.
    pub fn text(&self) -> &str
        ensures { result.now ≡ self.now.text }
    {
        self.text.as_str()
    }

    /// Begins a line by its name and the words before its fields.
    #[tactic(auto, unfolding(crate::specs::Forms::front_in, crate::specs::Writing::with_front))]
    pub fn begin(&mut self, name: &str, first: &str) -> Result<(), AllocError>
        ensures { IfOk result (λ _. self.new ≡ with_front name.now first.now self.old) }
    {
        self.text.clear();
        match self.form {
            Form::Text => self.text.push_str(first),
            Form::Json => write!(self.text, "{{\"line\":\"{name}\""),
        }
    }

    /// A number.
    #[tactic(auto, unfolding(crate::specs::Forms::field_in, crate::specs::Writing::with_field))]
    pub fn number<N: Integer>(
        &mut self,
        before: &str,
        name: &str,
        value: N,
    ) -> Result<(), AllocError>
        ensures { IfOk result (λ _. self.new
            ≡ with_field (field before.now name.now (Number (N.text value))) self.old) }
    {
        match self.form {
            Form::Text => self.text.push_str(before)?,
            Form::Json => append_name(&mut self.text, name)?,
        }
        append_number(&mut self.text, value)
    }

    /// A number that isn't an integer.
    #[tactic(auto, unfolding(crate::specs::Forms::field_in, crate::specs::Writing::with_field))]
    pub fn fraction<T: fmt::Display + Copy>(
        &mut self,
        before: &str,
        name: &str,
        value: T,
    ) -> Result<(), AllocError>
        ensures { IfOk result (λ _. IfSome (T.output value) (λ digits.
            self.new ≡ with_field (field before.now name.now (Number digits)) self.old)) }
    {
        match self.form {
            Form::Text => self.text.push_str(before)?,
            Form::Json => append_name(&mut self.text, name)?,
        }
        write!(self.text, "{value}")
    }

    /// A label, by its digits.
    #[tactic(auto, unfolding(crate::specs::Forms::field_in, crate::specs::Writing::with_field))]
    pub fn label(&mut self, before: &str, name: &str, label: &[u8; 16]) -> Result<(), AllocError>
        ensures { IfOk result (λ _. self.new
            ≡ with_field (field before.now name.now (Characters (hex_of label.now))) self.old) }
    {
        let digits = self.label.digits_of(label)?;
        match self.form {
            Form::Text => {
                self.text.push_str(before)?;
                self.text.push_str(digits)
            }
            Form::Json => {
                append_name(&mut self.text, name)?;
                append_quoted(&mut self.text, digits)
            }
        }
    }

    /// A number, after this number of spaces.
    #[tactic(auto, unfolding(crate::specs::Forms::field_in, crate::specs::Writing::with_field))]
    pub fn number_behind(
        &mut self,
        spaces: usize,
        name: &str,
        value: u128,
    ) -> Result<(), AllocError>
        ensures { IfOk result (λ _. self.new ≡ with_field (field (codes " " ++ repeat spaces (codes " ")) name.now
            (Number (decimal value))) self.old) }
    {
        match self.form {
            Form::Text => {
                self.text.push_str(" ")?;
                append_spaces(&mut self.text, spaces)?;
            }
            Form::Json => append_name(&mut self.text, name)?,
        }
        append_number(&mut self.text, value)
    }

    /// A number, or a word if there is none.
    pub fn known<N: Integer>(
        &mut self,
        before: &str,
        name: &str,
        none: &str,
        value: Option<N>,
    ) -> Result<(), AllocError>
        ensures { IfOk result (λ _. self.new
            ≡ with_field (field before.now name.now (digits_or N.text none.now value)) self.old) }
    {
        match value {
            Some(value) => self.number(before, name, value),
            None => self.absent(before, name, none),
        }
    }

    /// A word, or other characters.
    #[tactic(auto, unfolding(crate::specs::Forms::field_in, crate::specs::Writing::with_field))]
    pub fn word<T: fmt::Display + Copy>(
        &mut self,
        before: &str,
        name: &str,
        value: T,
    ) -> Result<(), AllocError>
        ensures { IfOk result (λ _. IfSome (T.output value) (λ text.
            self.new ≡ with_field (field before.now name.now (Characters text)) self.old)) }
    {
        match self.form {
            Form::Text => {
                self.text.push_str(before)?;
                write!(self.text, "{value}")
            }
            Form::Json => {
                self.characters.clear();
                write!(self.characters, "{value}")?;
                append_name(&mut self.text, name)?;
                append_quoted(&mut self.text, &self.characters)
            }
        }
    }

    /// A value that isn't there, with the word for that.
    #[tactic(auto, unfolding(crate::specs::Forms::field_in, crate::specs::Writing::with_field))]
    pub fn absent(&mut self, before: &str, name: &str, word: &str) -> Result<(), AllocError>
        ensures { IfOk result (λ _. self.new ≡ with_field (field before.now name.now (Absent word.now)) self.old) }
    {
        match self.form {
            Form::Text => {
                self.text.push_str(before)?;
                self.text.push_str(word)
            }
            Form::Json => {
                append_name(&mut self.text, name)?;
                self.text.push_str("null")
            }
        }
    }

    /// Whether a word stands in the text.
    #[tactic(auto, unfolding(crate::specs::Forms::field_in, crate::specs::Writing::with_field))]
    pub fn flag(&mut self, word: &str, name: &str, stands: bool) -> Result<(), AllocError>
        ensures { IfOk result (λ _. self.new ≡ with_field (field word.now name.now (Flag stands)) self.old) }
    {
        match self.form {
            Form::Text if stands => self.text.push_str(word),
            Form::Text => Ok(()),
            Form::Json => {
                append_name(&mut self.text, name)?;
                write!(self.text, "{stands}")
            }
        }
    }

    /// A word that the text doesn't show.
    #[tactic(auto, unfolding(crate::specs::Forms::field_in, crate::specs::Writing::with_field))]
    pub fn fixed(&mut self, before: &str, name: &str, word: &str) -> Result<(), AllocError>
        ensures { IfOk result (λ _. self.new ≡ with_field (field before.now name.now (Fixed word.now)) self.old) }
    {
        match self.form {
            Form::Text => self.text.push_str(before),
            Form::Json => {
                append_name(&mut self.text, name)?;
                append_quoted(&mut self.text, word)
            }
        }
    }

    /// Numbers.
    #[tactic(auto, unfolding(crate::specs::Forms::field_in, crate::specs::Writing::with_field))]
    pub fn numbers(&mut self, before: &str, name: &str, values: &[usize]) -> Result<(), AllocError>
        ensures { IfOk result (λ _. self.new ≡ with_field (field before.now name.now (Numbers values.now)) self.old) }
    {
        match self.form {
            Form::Text => {
                self.text.push_str(before)?;
                append_numbers(&mut self.text, " ", values)
            }
            Form::Json => {
                append_name(&mut self.text, name)?;
                self.text.push_str("[")?;
                append_numbers(&mut self.text, ",", values)?;
                self.text.push_str("]")
            }
        }
    }

    /// A number that JSON alone has.
    #[tactic(auto, unfolding(crate::specs::Forms::field_in, crate::specs::Writing::with_field))]
    pub fn number_member<N: Integer>(&mut self, name: &str, value: N) -> Result<(), AllocError>
        ensures { IfOk result (λ _. self.new ≡ with_field (member name.now (Number (N.text value))) self.old) }
    {
        match self.form {
            Form::Text => Ok(()),
            Form::Json => self.number("", name, value),
        }
    }

    /// A number that JSON alone has, or null.
    #[tactic(auto, unfolding(crate::specs::Forms::field_in, crate::specs::Writing::with_field))]
    pub fn known_member(&mut self, name: &str, value: Option<u128>) -> Result<(), AllocError>
        ensures { IfOk result (λ _. self.new ≡ with_field (member name.now (number_or [] value)) self.old) }
    {
        match self.form {
            Form::Text => Ok(()),
            Form::Json => self.known("", name, "", value),
        }
    }

    /// A word, or other characters, that JSON alone has.
    #[tactic(auto, unfolding(crate::specs::Forms::field_in, crate::specs::Writing::with_field))]
    pub fn word_member<T: fmt::Display + Copy>(
        &mut self,
        name: &str,
        value: T,
    ) -> Result<(), AllocError>
        ensures { IfOk result (λ _. IfSome (T.output value) (λ text.
            self.new ≡ with_field (member name.now (Characters text)) self.old)) }
    {
        match self.form {
            Form::Text => Ok(()),
            Form::Json => self.word("", name, value),
        }
    }

    /// Ends the line with the words after its fields.
    #[tactic(auto, unfolding(crate::specs::Forms::end_in, crate::specs::Writing::with_end))]
    pub fn end(&mut self, last: &str) -> Result<(), AllocError>
        ensures { IfOk result (λ _. self.new ≡ with_end last.now self.old) }
    {
        match self.form {
            Form::Text => {
                self.text.push_str(last)?;
                self.text.push('\n')
            }
            Form::Json => self.text.push_str("}\n"),
        }
    }
}

/// Appends a number.
fn append_number<N: Integer>(line: &mut String, value: N) -> Result<(), AllocError>
    ensures { IfOk result (λ _. string_bytes line.new ≡ string_bytes line.old ++ N.text value) }
{
    let mut digits = itoa::Buffer::new();
    line.push_str(digits.format(value))
}

/// Appends the name of a field of JSON.
fn append_name(line: &mut String, name: &str) -> Result<(), AllocError>
    ensures { IfOk result (λ _. string_bytes line.new
        ≡ string_bytes line.old ++ (codes ",\"" ++ (name.now ++ codes "\":"))) }
{
    line.push_str(",\"")?;
    line.push_str(name)?;
    line.push_str("\":")
}

/// Appends the string of a text.
fn append_quoted(line: &mut String, text: &str) -> Result<(), AllocError>
    ensures { IfOk result (λ _. string_bytes line.new ≡ string_bytes line.old ++ quoted text.now) }
{
    line.push_str("\"")?;
    append_escaped(line, text)?;
    line.push_str("\"")
}

/// Appends spaces.
fn append_spaces(line: &mut String, count: usize) -> Result<(), AllocError>
    ensures { IfOk result (λ _. string_bytes line.new ≡ string_bytes line.old ++ repeat count (codes " ")) }
{
    let mut left = count;
    while left > 0 {
        line.push_str(" ")?;
        left -= 1;
    }
    Ok(())
}

/// Appends numbers, with a separator between two of them.
fn append_numbers(line: &mut String, separator: &str, values: &[usize]) -> Result<(), AllocError>
    ensures { IfOk result (λ _. string_bytes line.new
        ≡ string_bytes line.old ++ separated separator.now values.now) }
{
    let Some((first, others)) = values.split_first() else {
        return Ok(());
    };
    append_number(line, *first)?;
    append_others(line, separator, others)
}

/// Appends numbers, with a separator ahead of each.
fn append_others(line: &mut String, separator: &str, values: &[usize]) -> Result<(), AllocError>
    ensures { IfOk result (λ _. string_bytes line.new
        ≡ string_bytes line.old ++ separated_behind separator.now values.now) }
{
    for value in values {
        line.push_str(separator)?;
        append_number(line, *value)?;
    }
    Ok(())
}

/// Appends a text as it stands in a string.
fn append_escaped(line: &mut String, text: &str) -> Result<(), AllocError>
    ensures { IfOk result (λ _. string_bytes line.new ≡ string_bytes line.old ++ escaped text.now) }
{
    for c in text.chars() {
        append_character(line, c)?;
    }
    Ok(())
}

/// Appends a character as it stands in a string: a quotation mark and a backslash have a backslash before them.
#[tactic(auto, using(crate::proofs::StringLaws::escaped_plain))]
fn append_character(line: &mut String, c: char) -> Result<(), AllocError>
    ensures { IfOk result (λ _. string_bytes line.new ≡ string_bytes line.old ++ escaped (encode_utf8 c)) }
{
    if c == '"' || c == '\\' {
        write!(line, "\\{c}")
    } else {
        line.push(c)
    }
}

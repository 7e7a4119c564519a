//! Lists of sources: texts that name a source a line.
ghost use Rattle.std.specs.Prelude.{◌≡◌, ◌++◌, ◌∷◌, [], nat_lt, filter, length, map, IfErr, IfOk, OnOk};
ghost use Rattle.mxf_commands.specs.Lists.{bad_line, named, naming_lines};

use std::alloc::{AllocError, Global};
use std::str;

/// The number of the first line that isn't UTF-8, counted from 1.
#[derive(Clone, Copy)]
pub struct BadLine(pub usize);

/// The bytes of a list as text.
pub fn text_of(bytes: &[u8]) -> Result<&str, BadLine>
    ensures text { IfOk result (λ text. text.now ≡ bytes.now) }
    ensures line { IfErr result (λ line. line.0 ≡ bad_line bytes.now) }
{
    match str::from_utf8(bytes) {
        Ok(text) => Ok(text),
        Err(fault) => {
            let before = &bytes[..fault.valid_up_to()];
            let lines = before.iter().filter(|byte| **byte == b'\n').count();
            Err(BadLine(lines.saturating_add(1)))
        }
    }
}

/// The words, and after them the lines of the list that aren't empty.
pub fn all_words<'a, 'b: 'a>(
    alloc: Global,
    words: Option<&[&'b str]>,
    list: &'a str,
) -> Result<Vec<&'a str>, AllocError>
    ensures { IfOk result (λ all. map (λ word. word.now) all.items ≡ named words.entry ++ naming_lines list.now) }
{
    let mut all = Vec::new(alloc);
    if let Some(words) = words {
        'words: for word in words {
            all.push(*word)?;
        }
    }
    push_lines(&mut all, list)?;
    Ok(all)
}

/// Adds the lines of the list that aren't empty.
fn push_lines<'a>(all: &mut Vec<&'a str>, list: &'a str) -> Result<(), AllocError>
    ensures { OnOk result (map (λ word. word.now) all.new.items
        ≡ map (λ word. word.now) all.old.items ++ naming_lines list.now) }
{
    let mut rest = list;
    'lines: while let Some((line, behind)) = rest.split_once('\n') {
        push_line(all, line)?;
        rest = behind;
    }
    push_line(all, rest)
}

/// Adds the line unless it is empty.
fn push_line<'a>(all: &mut Vec<&'a str>, line: &'a str) -> Result<(), AllocError>
    ensures { OnOk result (map (λ word. word.now) all.new.items
        ≡ map (λ word. word.now) all.old.items ++ filter (λ l. nat_lt 0 (length l)) (line.now ∷ [])) }
{
    if !line.is_empty() {
        all.push(line)?;
    }
    Ok(())
}

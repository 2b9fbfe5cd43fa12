// The pieces of texts for the targets of templates.
ghost use Rattle.std.specs.Prelude.{◌≡◌, ◌++◌, drop, slice_get, IfOk, OnOk};
ghost use Rattle.rx_template.specs.Pieces.{pieces};
ghost use Rattle.rx_machine.specs.Templates.{first_text, in_case, row_for};
ghost use Rattle.rx_kernel.specs.Parsing.{all_rows_of, rows_of};

use crate::binding::Bound;
use crate::texts::{piece_text, upper_text};
use rx_template::{Pieces, parse};
use rx_tree::{Name, OutOfMemory, Text, Value};
use sqlite_items::{Items, at};
use std::alloc::Global;

/// Variables, each with the value that it gets, or with none.
pub(crate) type Rows = Items<(Name, Option<Value>)>;

/// The texts, in upper case where that is asked for.
pub(crate) fn in_case(
    alloc: Global,
    upper: bool,
    texts: Items<Text>,
) -> Result<Items<Text>, OutOfMemory>
    ensures { IfOk result (λ cased. cased ≡ in_case upper texts) }
{
    if !upper {
        return Ok(texts);
    }
    let mut cased = Items::new(alloc);
    for text in texts.as_slice() {
        let text = upper_text(alloc, text)?;
        cased.push(text)?;
    }
    Ok(cased)
}

// The pieces of a text.
fn pieces_of(alloc: Global, bound: &Bound, text: &[u8]) -> Result<Pieces, OutOfMemory>
    ensures { IfOk result (λ taken. taken ≡ pieces bound.now.template.parts text.now) }
{
    match parse(alloc, &bound.template, text) {
        Ok(taken) => Ok(taken),
        Err(_) => Err(OutOfMemory),
    }
}

// Appends the target of this number, with its piece.
fn push_row(
    alloc: Global,
    rows: &mut Rows,
    targets: &[Name],
    number: u32,
    bytes: &[u8],
) -> Result<(), OutOfMemory>
    ensures { OnOk result (rows.new ≡ rows.old ++ row_for bytes.now (slice_get targets.now number)) }
{
    match at(targets, number as usize) {
        Some(name) => {
            let name = name.share(alloc)?;
            let text = piece_text(alloc, bytes)?;
            rows.push((name, Some(Value::Str(text))))?;
            Ok(())
        }
        None => Ok(()),
    }
}

// Appends the targets of a template, with what they get of a text.
fn push_rows(alloc: Global, rows: &mut Rows, bound: &Bound, text: &[u8]) -> Result<(), OutOfMemory>
    ensures { OnOk result (rows.new ≡ rows.old ++ rows_of bound.now text.now) }
{
    let taken = pieces_of(alloc, bound, text)?;
    for piece in taken.as_slice() {
        push_row(
            alloc,
            rows,
            bound.targets.as_slice(),
            piece.0,
            piece.1.as_slice(),
        )?;
    }
    Ok(())
}

// The first text, or an empty one where there is none, and the others.
fn split_text(texts: &[Text]) -> (&[u8], &[Text])
    ensures first { result.0.now ≡ first_text texts.now }
    ensures others { result.1.now ≡ drop 1 texts.now }
{
    match texts {
        [text, others @ ..] => (text.bytes(), others),
        [] => (&[], texts),
    }
}

/// The targets of all templates, with what they get of the texts. Each template cuts the next text, or an empty one where there
/// are no more.
pub(crate) fn all_rows(alloc: Global, bounds: &[Bound], texts: &[Text]) -> Result<Rows, OutOfMemory>
    ensures { IfOk result (λ rows. rows ≡ all_rows_of bounds.now texts.now) }
{
    let mut rows = Items::new(alloc);
    let mut rest = texts;
    for bound in bounds {
        let (text, others) = split_text(rest);
        push_rows(alloc, &mut rows, bound, text)?;
        rest = others;
    }
    Ok(rows)
}

//! The pieces of a table's text, each appended to what was written before.

ghost use Rattle.std.specs.Prelude.{◌≡◌, ◌++◌, codes, map, decimal, OnOk};
ghost use Rattle.std.specs.Fmt.{signed_decimal};
ghost use Rattle.std.specs.List.{join_by};
ghost use Rattle.sparse_row.specs.Terms.{entry_of};
ghost use Rattle.table_text.specs.Pieces.{descending_terms, integral_text, line_text, name_of, term_text, sum_text};

use integral_index::Integral;
use itoa::Buffer;
use out_of_memory::OutOfMemory;
use sparse_row::{Row, Term};
use text_tokens::Name;

/// Appends an integral, whose family has the name at its place.
pub(crate) fn push_integral(
    text: &mut Vec<u8>,
    names: &[Name],
    integral: &Integral,
) -> Result<(), OutOfMemory>
    ensures { OnOk result (text.new.items ≡ text.old.items ++ integral_text (name_of names.now integral.now.family) integral.now) }
{
    text.extend_from_slice(family_name(names, integral.family()).as_bytes())?;
    text.extend_from_slice(b"[")?;
    push_indices(text, integral.indices())?;
    text.extend_from_slice(b"]")?;
    Ok(())
}

// The name of a family by its place, and no byte past the last.
fn family_name(names: &[Name], family: u32) -> &str
    ensures { result.now ≡ name_of names.now family }
{
    match names.get(family as usize) {
        Some(name) => name.as_str(),
        None => "",
    }
}

// Appends the indices, joined by commas.
fn push_indices(text: &mut Vec<u8>, indices: &[i8]) -> Result<(), OutOfMemory>
    ensures { OnOk result (text.new.items ≡ text.old.items ++ join_by signed_decimal (codes ",") indices.now) }
{
    let Some((first, rest)) = indices.split_first() else {
        return Ok(());
    };
    push_index(text, first)?;
    for index in rest {
        push_further_index(text, index)?;
    }
    Ok(())
}

fn push_further_index(text: &mut Vec<u8>, index: &i8) -> Result<(), OutOfMemory>
    ensures { OnOk result (text.new.items ≡ text.old.items ++ (codes "," ++ signed_decimal index.now)) }
{
    text.extend_from_slice(b",")?;
    push_index(text, index)
}

fn push_index(text: &mut Vec<u8>, index: &i8) -> Result<(), OutOfMemory>
    ensures { OnOk result (text.new.items ≡ text.old.items ++ signed_decimal index.now) }
{
    let mut buffer = Buffer::new();
    text.extend_from_slice(buffer.format(*index).as_bytes())?;
    Ok(())
}

/// Appends the terms joined by plus signs, and 0 where there is none.
pub(crate) fn push_sum(
    text: &mut Vec<u8>,
    names: &[Name],
    terms: &[Term],
) -> Result<(), OutOfMemory>
    ensures { OnOk result (text.new.items ≡ text.old.items ++ sum_text (name_of names.now) (map entry_of terms.now)) }
{
    let Some((first, rest)) = terms.split_first() else {
        text.extend_from_slice(b"0")?;
        return Ok(());
    };
    push_term(text, names, first)?;
    for term in rest {
        push_further_term(text, names, term)?;
    }
    Ok(())
}

fn push_further_term(text: &mut Vec<u8>, names: &[Name], term: &Term) -> Result<(), OutOfMemory>
    ensures { OnOk result (text.new.items ≡ text.old.items ++ (codes " + " ++ term_text (name_of names.now) (entry_of term.now))) }
{
    text.extend_from_slice(b" + ")?;
    push_term(text, names, term)
}

fn push_term(text: &mut Vec<u8>, names: &[Name], term: &Term) -> Result<(), OutOfMemory>
    ensures { OnOk result (text.new.items ≡ text.old.items ++ term_text (name_of names.now) (entry_of term.now)) }
{
    push_number(text, term.coefficient)?;
    text.extend_from_slice(b"*")?;
    push_integral(text, names, &term.integral)
}

/// Appends a number in decimal.
pub(crate) fn push_number(text: &mut Vec<u8>, number: u64) -> Result<(), OutOfMemory>
    ensures { OnOk result (text.new.items ≡ text.old.items ++ decimal number) }
{
    let mut buffer = Buffer::new();
    text.extend_from_slice(buffer.format(number).as_bytes())?;
    Ok(())
}

/// Appends a line: an integral, and what it equals.
pub(crate) fn push_line(
    text: &mut Vec<u8>,
    names: &[Name],
    integral: &Integral,
    form: &Row,
) -> Result<(), OutOfMemory>
    ensures { OnOk result (text.new.items ≡ text.old.items ++ line_text (name_of names.now) integral.now form.now) }
{
    push_integral(text, names, integral)?;
    text.extend_from_slice(b" = ")?;
    push_form(text, names, form)?;
    text.extend_from_slice(b"\n")?;
    Ok(())
}

// Appends the terms of a row.
fn push_form(text: &mut Vec<u8>, names: &[Name], form: &Row) -> Result<(), OutOfMemory>
    ensures { OnOk result (text.new.items ≡ text.old.items ++ sum_text (name_of names.now) (descending_terms form.now)) }
{
    push_sum(text, names, form.terms())?;
    Ok(())
}

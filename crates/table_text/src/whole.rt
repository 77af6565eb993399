//! The whole text of a table, and its masters.

ghost use Rattle.std.specs.Prelude.{◌≡◌, ◌++◌, ◌<◌, length, codes, All, IfOk, OnOk};
ghost use Rattle.std.specs.List.{flat_map};
ghost use Rattle.sparse_row.specs.Row.{IsRow};
ghost use Rattle.reduction_core.specs.NormalForm.{masters};
ghost use Rattle.table_text.specs.Pieces.{descending_terms, integral_text, line_text, name_of};
ghost use Rattle.table_text.specs.TableText.{form_of, masters_text, table_text, zeros_of};

use crate::distinct::{ascending, push_shown};
use crate::pieces::{push_integral, push_line, push_number};
use integral_index::{Integral, ZeroSectors};
use out_of_memory::OutOfMemory;
use reduction_core::Table;
use sparse_row::Row;
use std::alloc::Global;
use text_tokens::Name;

/// The text of a table for a selection: a line for each selected integral, and then the masters.
/// Each family of the selection has its zero sectors.
pub fn text(
    alloc: Global,
    table: &Table,
    names: &[Name],
    zeros: &[ZeroSectors],
    selection: &[Integral],
) -> Result<Vec<u8>, OutOfMemory>
    requires { All (λ x. x.family < length zeros.now) selection.now }
    ensures { IfOk result (λ text. text.items ≡ table_text (name_of names.now) (zeros_of zeros.now) table.now selection.now) }
{
    let mut text = Vec::new(alloc);
    let mut shown = Vec::new(alloc);
    for integral in selection {
        let form = table.normal_form(integral, &zeros[integral.family() as usize])?;
        push_line(&mut text, names, integral, &form)?;
        push_shown(&mut shown, &form)?;
    }
    push_masters(&mut text, names, &ascending(alloc, shown, table.order())?)?;
    Ok(text)
}

/// The masters of a selection: the integrals that its normal forms show, ascending, each once.
/// Each family of the selection has its zero sectors.
pub fn masters(
    alloc: Global,
    table: &Table,
    zeros: &[ZeroSectors],
    selection: &[Integral],
) -> Result<Vec<Integral>, OutOfMemory>
    requires { All (λ x. x.family < length zeros.now) selection.now }
    ensures { IfOk result (λ found. found.items ≡ masters table.now.modulus table.now.order (zeros_of zeros.now) table.now.rows selection.now) }
{
    let mut shown = Vec::new(alloc);
    for integral in selection {
        let form = table.normal_form(integral, &zeros[integral.family() as usize])?;
        push_shown(&mut shown, &form)?;
    }
    Ok(ascending(alloc, shown, table.order())?)
}

// Appends how many masters there are, and a line for each.
fn push_masters(text: &mut Vec<u8>, names: &[Name], masters: &[Integral]) -> Result<(), OutOfMemory>
    ensures { OnOk result (text.new.items ≡ text.old.items ++ masters_text (name_of names.now) masters.now) }
{
    text.extend_from_slice(b"masters ")?;
    push_number(text, masters.len() as u64)?;
    text.extend_from_slice(b"\n")?;
    push_integrals(text, names, masters)
}

// Appends a line for each integral.
fn push_integrals(
    text: &mut Vec<u8>,
    names: &[Name],
    integrals: &[Integral],
) -> Result<(), OutOfMemory>
    ensures { OnOk result (text.new.items ≡ text.old.items
        ++ flat_map (λ x. integral_text (name_of names.now x.family) x ++ codes "\n") integrals.now) }
{
    for integral in integrals {
        push_integral_line(text, names, integral)?;
    }
    Ok(())
}

fn push_integral_line(
    text: &mut Vec<u8>,
    names: &[Name],
    integral: &Integral,
) -> Result<(), OutOfMemory>
    ensures { OnOk result (text.new.items ≡ text.old.items
        ++ (integral_text (name_of names.now integral.now.family) integral.now ++ codes "\n")) }
{
    push_integral(text, names, integral)?;
    text.extend_from_slice(b"\n")?;
    Ok(())
}

//! Rows with the pivots of the rows below cleared out of them.

ghost use Rattle.std.specs.Prelude.{◌<◌, All, IfOk, OnOk};
ghost use Rattle.std.specs.List.{AllZip};
ghost use Rattle.sparse_row.specs.Row.{IsRow};
ghost use Rattle.sector_forward.specs.Elimination.{AreApart};
ghost use Rattle.back_substitute.specs.Pivots.{IsIndex};
ghost use Rattle.back_substitute.specs.Steps.{IsTermCleared, IsSubstituted};

use crate::pivots::{PivotPlace, place_of};
use crate::sums::{multiple_of, sum_of};
use field_word::Modulus;
use integral_index::Order;
use out_of_memory::OutOfMemory;
use sparse_row::{Row, Term};
use std::alloc::Global;

/// The rows, each with all pivots of the rows below cleared out of it.
pub(crate) fn substituted_rows(
    alloc: Global,
    rows: &[Row],
    below: &[Row],
    index: &[PivotPlace],
    order: Order,
    modulus: &Modulus,
) -> Result<Vec<Row>, OutOfMemory>
    requires rows { All (IsRow modulus.now order) rows.now }
    requires below { All (IsRow modulus.now order) below.now }
    requires apart { AreApart order below.now }
    requires index { IsIndex order below.now index.now }
    ensures { IfOk result (λ made. AllZip (IsSubstituted modulus.now order below.now) rows.now made.items) }
{
    let mut made = Vec::with_capacity(alloc, rows.len())?;
    for row in rows {
        let cleared = substituted(alloc, row, below, index, order, modulus)?;
        made.push(cleared)?;
    }
    Ok(made)
}

// The row with all pivots of the rows below cleared out of it. One pass over its terms finds all
// multiples that are to be added, since no row below brings a pivot of another in.
fn substituted(
    alloc: Global,
    row: &Row,
    below: &[Row],
    index: &[PivotPlace],
    order: Order,
    modulus: &Modulus,
) -> Result<Row, OutOfMemory>
    requires row { IsRow modulus.now order row.now }
    requires below { All (IsRow modulus.now order) below.now }
    requires apart { AreApart order below.now }
    requires index { IsIndex order below.now index.now }
    ensures { IfOk result (IsSubstituted modulus.now order below.now row.now) }
{
    let mut parts = Vec::new(alloc);
    parts.push(row.copy()?)?;
    let terms = row.terms();
    for term in terms {
        push_multiple(&mut parts, term, below, index, order, modulus)?;
    }
    sum_of(alloc, parts, order, modulus)
}

// Where the term is of a pivot, appends the multiple of the row below that takes the coefficient of
// the term away.
fn push_multiple(
    parts: &mut Vec<Row>,
    term: &Term,
    below: &[Row],
    index: &[PivotPlace],
    order: Order,
    modulus: &Modulus,
) -> Result<(), OutOfMemory>
    requires parts { All (IsRow modulus.now order) parts.old.items }
    requires residue { term.now.coefficient < modulus.now }
    requires below { All (IsRow modulus.now order) below.now }
    requires apart { AreApart order below.now }
    requires index { IsIndex order below.now index.now }
    ensures { OnOk result (IsTermCleared modulus.now order below.now term.now parts.old.items parts.new.items) }
{
    if let Some(place) = place_of(index, order, &term.integral) {
        let factor = modulus.neg(term.coefficient);
        let multiple = multiple_of(*parts.allocator(), &below[place], factor, order, modulus)?;
        parts.push(multiple)?;
    }
    Ok(())
}

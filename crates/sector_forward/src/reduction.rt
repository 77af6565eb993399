//! The reduced list of a list of rows, by elimination in one list.

ghost use Rattle.std.specs.Prelude.{◌≡◌, ℕ, ◌+◌, ◌<◌, ◌≤◌, List, [], ◌∷◌, ◌++◌, length, All, IfOk, OnOk, IfErr};
ghost use Rattle.sparse_row.specs.Row.{Row as RowValue, IsRow};
ghost use Rattle.sparse_row.specs.Span.{SameSpan};
ghost use Rattle.sparse_row.specs.ReducedList.{IsReduced};
ghost use Rattle.sector_forward.specs.Fault.{HasCause};
ghost use Rattle.sector_forward.specs.Steps.{IsStairs, IsPivotAt, IsPlaceFor, IsForward, IsBack};

use crate::fault::ForwardFault;
use crate::steps::{clear_pivots, place_of_pivot};
use field_word::Modulus;
use integral_index::{Integral, Order};
use out_of_memory::OutOfMemory;
use sparse_row::Row;
use std::alloc::Global;
use std::cmp::Ordering;

/// The reduced list of the rows, no longer than they are. The rows are taken in ascending order of
/// their greatest integrals, and the shorter first, since the rules that they meet are then short.
///
/// `Composite` only where the modulus has the divisor, which lies between 1 and it; a composite
/// modulus that meets no coefficient without an inverse is no fault. Source: hep-ph/0102033.
pub fn reduced_rows(
    alloc: Global,
    mut rows: Vec<Row>,
    modulus: &Modulus,
    order: Order,
) -> Result<Vec<Row>, ForwardFault>
    requires { All (IsRow modulus.now order) rows.items }
    ensures reduced { IfOk result (λ table. IsReduced modulus.now order rows.items table.items) }
    ensures few { IfOk result (λ table. length table.items ≤ length rows.items) }
    ensures cause { IfErr result (λ fault. HasCause modulus.now fault) }
{
    rows.sort_unstable_by(|row, other| compare_rows(row, other, order));
    let stairs = forward(alloc, rows, order, modulus)?;
    Ok(back(alloc, stairs, order, modulus)?)
}

// The order in which rows are taken: by the greatest integral, and then by length.
fn compare_rows(row: &Row, other: &Row, order: Order) -> Ordering {
    match (row.greatest(), other.greatest()) {
        (Some(x), Some(y)) => order
            .compare(x, y)
            .then(row.terms().len().cmp(&other.terms().len())),
        (Some(_), None) => Ordering::Greater,
        (None, Some(_)) => Ordering::Less,
        (None, None) => Ordering::Equal,
    }
}

// Rows with ascending pivots and the span of the equations.
fn forward(
    alloc: Global,
    equations: Vec<Row>,
    order: Order,
    modulus: &Modulus,
) -> Result<Vec<Row>, ForwardFault>
    requires { All (IsRow modulus.now order) equations.items }
    ensures forward { IfOk result (λ table. IsForward modulus.now order equations.items table.items) }
    ensures cause { IfErr result (λ fault. HasCause modulus.now fault) }
{
    let mut table = Vec::new(alloc);
    for equation in equations {
        take_equation(&mut table, equation, order, modulus)?;
    }
    Ok(table)
}

// Adds an equation to the span of the table. One that depends on the table's rows adds nothing.
fn take_equation(
    table: &mut Vec<Row>,
    equation: Row,
    order: Order,
    modulus: &Modulus,
) -> Result<(), ForwardFault>
    requires row { IsRow modulus.now order equation }
    requires stairs { IsStairs modulus.now order table.old.items }
    ensures stairs { OnOk result (IsStairs modulus.now order table.new.items) }
    ensures span { OnOk result (SameSpan modulus.now (table.old.items ++ equation ∷ []) table.new.items) }
    ensures few { OnOk result (length table.new.items ≤ length table.old.items + 1) }
    ensures cause { IfErr result (λ fault. HasCause modulus.now fault) }
{
    let mut row = equation;
    clear_pivots(&mut row, table, order, modulus)?;
    let pivot = match row.greatest() {
        Some(pivot) => *pivot,
        None => return Ok(()),
    };
    row.normalise(modulus)?;
    let place = free_place(table, order, &pivot);
    table.insert(place, row)?;
    Ok(())
}

// The place where a row belongs whose pivot no other row has.
fn free_place(rows: &[Row], order: Order, x: &Integral) -> usize
    requires stairs { (p : ℕ) × IsStairs p order rows.now }
    requires free { (k : ℕ) → k < length rows.now → ¬ (IsPivotAt order rows.now k x.now) }
    ensures { IsPlaceFor order rows.now x.now result }
{
    match place_of_pivot(rows, order, x) {
        Ok(_) => unreachable!(),
        Err(place) => place,
    }
}

// Clears the pivots out of all other rows. The rows ascend, so that those that a row is cleared by
// are clear of pivots themselves.
fn back(
    alloc: Global,
    rows: Vec<Row>,
    order: Order,
    modulus: &Modulus,
) -> Result<Vec<Row>, OutOfMemory>
    requires { IsStairs modulus.now order rows.items }
    ensures { IfOk result (λ table. IsBack modulus.now order rows.items table.items) }
{
    let mut table = Vec::with_capacity(alloc, rows.len())?;
    for mut row in rows {
        clear_pivots(&mut row, &table, order, modulus)?;
        table.push(row)?;
    }
    Ok(table)
}

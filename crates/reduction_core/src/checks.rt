//! Slow checks, each of which answers by a definition: for small inputs, and for what other ways of
//! computing a table are compared with.

ghost use Rattle.std.specs.Prelude.{◌≡◌, ◌↔◌, ℕ, ◌<◌, length, map, All, IsTrue, IfOk};
ghost use Rattle.sparse_row.specs.Row.{IsRow, IsPivot};
ghost use Rattle.sparse_row.specs.ReducedList.{IsEchelon, IsReduced};
ghost use Rattle.reduction_core.specs.Checks.{IsMultiplierList, IsSum, AreSums, IsShownReduced, StandsBelow, StandsAt};
ghost use Rattle.reduction_core.specs.NormalForm.{normal_form};
ghost use Rattle.sector_forward.specs.Steps.{HasPivot};

use crate::table::{solved, unit_row};
use field_word::Modulus;
use integral_index::{Integral, Order, ZeroSectors};
use out_of_memory::OutOfMemory;
use sparse_row::Row;
use std::alloc::Global;
use std::cmp::Ordering;

/// Whether the row is the sum of the multiples of the rows by the multipliers, one for each.
pub fn is_sum(
    alloc: Global,
    rows: &[Row],
    multipliers: &[u64],
    row: &Row,
    order: Order,
    modulus: &Modulus,
) -> Result<bool, OutOfMemory>
    requires rows { All (IsRow modulus.now order) rows.now }
    requires multipliers { IsMultiplierList modulus.now rows.now multipliers.now }
    requires row { IsRow modulus.now order row.now }
    ensures { IfOk result
        (λ answer. IsTrue answer ↔ IsSum modulus.now rows.now multipliers.now row.now) }
{
    let mut sum = Row::new(alloc, order);
    for k in 0..rows.len() {
        sum.add_multiple(&rows[k], multipliers[k], modulus)?;
    }
    Ok(sum.equals(row))
}

/// Whether each of the sums is that of the multiples of the rows by the multipliers at its place.
pub fn are_sums(
    alloc: Global,
    rows: &[Row],
    multipliers: &[Vec<u64>],
    sums: &[Row],
    order: Order,
    modulus: &Modulus,
) -> Result<bool, OutOfMemory>
    requires rows { All (IsRow modulus.now order) rows.now }
    requires multipliers { All (λ list. IsMultiplierList modulus.now rows.now list.items) multipliers.now }
    requires len { length multipliers.now ≡ length sums.now }
    requires sums { All (IsRow modulus.now order) sums.now }
    ensures { IfOk result
        (λ answer. IsTrue answer
        ↔ AreSums modulus.now rows.now (map (λ list. list.items) multipliers.now) sums.now) }
{
    for k in 0..sums.len() {
        if !is_sum(alloc, rows, &multipliers[k], &sums[k], order, modulus)? {
            return Ok(false);
        }
    }
    Ok(true)
}

/// Whether the rows are an echelon form: a pivot each, ascending, and no pivot in another row.
pub fn is_echelon(table: &[Row], order: Order) -> bool
    requires { All (λ row. row.order ≡ order) table.now }
    ensures { (p : ℕ) → All (IsRow p order) table.now → IsTrue result ↔ IsEchelon p order table.now }
{
    if !have_pivots(table, order) {
        return false;
    }
    for k in 0..table.len() {
        if !stands_below_rest(table, k, order) {
            return false;
        }
    }
    true
}

/// Whether the table is the reduced list of the equations, as the multipliers show: by `down` each
/// row of the table is a sum of equations, and by `up` each equation is a sum of its rows.
pub fn is_reduced(
    alloc: Global,
    equations: &[Row],
    table: &[Row],
    down: &[Vec<u64>],
    up: &[Vec<u64>],
    order: Order,
    modulus: &Modulus,
) -> Result<bool, OutOfMemory>
    requires equations { All (IsRow modulus.now order) equations.now }
    requires table { All (IsRow modulus.now order) table.now }
    requires down { All (λ list. IsMultiplierList modulus.now equations.now list.items) down.now }
    requires down_len { length down.now ≡ length table.now }
    requires up { All (λ list. IsMultiplierList modulus.now table.now list.items) up.now }
    requires up_len { length up.now ≡ length equations.now }
    ensures exact { IfOk result (λ answer. IsTrue answer
        ↔ IsShownReduced modulus.now order equations.now table.now
        (map (λ list. list.items) down.now) (map (λ list. list.items) up.now)) }
    ensures reduced { IfOk result
        (λ answer. IsTrue answer → IsReduced modulus.now order equations.now table.now) }
{
    if !is_echelon(table, order) {
        return Ok(false);
    }
    if !are_sums(alloc, equations, down, table, order, modulus)? {
        return Ok(false);
    }
    are_sums(alloc, table, up, equations, order, modulus)
}

/// The normal form of an integral under any list of rows, by a scan for the row whose pivot it is.
/// `zeros` are the zero sectors of its family.
pub fn normal_form_by_scan(
    alloc: Global,
    rows: &[Row],
    x: &Integral,
    zeros: &ZeroSectors,
    order: Order,
    modulus: &Modulus,
) -> Result<Row, OutOfMemory>
    requires rows { All (IsRow modulus.now order) rows.now }
    requires modulus { 1 < modulus.now }
    ensures { IfOk result (λ row. row ≡ normal_form modulus.now order zeros.now rows.now x.now) }
{
    if zeros.is_zero(x.unit().sector) {
        return Ok(Row::new(alloc, order));
    }
    for row in rows {
        if is_pivot(row, order, x) {
            return solved(alloc, row, order, x, modulus);
        }
    }
    unit_row(alloc, order, x, modulus)
}

// Whether x is the pivot of the row.
pub(crate) fn is_pivot(row: &Row, order: Order, x: &Integral) -> bool
    requires { row.now.order ≡ order }
    ensures { IsTrue result ↔ IsPivot order row.now x.now }
{
    match row.greatest() {
        Some(greatest) => order.compare(greatest, x) == Ordering::Equal && row.coefficient(x) == 1,
        None => false,
    }
}

// Whether the row has a pivot: the coefficient 1 at its greatest integral.
fn has_pivot(row: &Row, order: Order) -> bool
    requires { row.now.order ≡ order }
    ensures { IsTrue result ↔ HasPivot order row.now }
{
    match row.greatest() {
        Some(greatest) => row.coefficient(greatest) == 1,
        None => false,
    }
}

fn have_pivots(table: &[Row], order: Order) -> bool
    requires { All (λ row. row.order ≡ order) table.now }
    ensures { IsTrue result ↔ All (HasPivot order) table.now }
{
    for row in table {
        if !has_pivot(row, order) {
            return false;
        }
    }
    true
}

// Whether the pivot of the row is less than that of the other, which doesn't show it.
fn stands_below(row: &Row, other: &Row, order: Order) -> bool
    requires row { row.now.order ≡ order }
    requires other { other.now.order ≡ order }
    requires row_pivot { HasPivot order row.now }
    requires other_pivot { HasPivot order other.now }
    ensures { IsTrue result ↔ StandsBelow order row.now other.now }
{
    match (row.greatest(), other.greatest()) {
        (Some(x), Some(y)) => order.compare(x, y) == Ordering::Less && other.coefficient(x) == 0,
        _ => unreachable!(),
    }
}

// The same for the row at a place and all that follow.
fn stands_below_rest(table: &[Row], place: usize, order: Order) -> bool
    requires place { place < length table.now }
    requires ordered { All (λ row. row.order ≡ order) table.now }
    requires pivots { All (HasPivot order) table.now }
    ensures { IsTrue result ↔ StandsAt order table.now place }
{
    for k in place + 1..table.len() {
        if !stands_below(&table[place], &table[k], order) {
            return false;
        }
    }
    true
}

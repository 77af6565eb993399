//! Rows put in ascending order of their greatest integrals.

ghost use Rattle.std.specs.Prelude.{◌≡◌, ◌++◌, ℕ, [], ◌∷◌, All, IfOk, OnOk};
ghost use Rattle.integral_index.specs.Integral.{Integral as IntegralValue};
ghost use Rattle.sparse_row.specs.Row.{IsRow, IsPivot};
ghost use Rattle.sector_forward.specs.Elimination.{AreApart};
ghost use Rattle.sector_forward.specs.Steps.{HasPivot, IsStairs, IsPlaceFor};
ghost use Rattle.reduction_core.specs.Ascending.{HaveNoPivotOf, HasMembers, IsAscending};

use integral_index::Order;
use out_of_memory::OutOfMemory;
use sector_forward::place_of_pivot;
use sparse_row::Row;
use std::alloc::Global;

/// The rows, which have a pivot each that no other of them shows, ascending. A row that is greater
/// than those before it is put at the end, so rows that ascend already cost no search.
pub(crate) fn ascending(
    alloc: Global,
    rows: Vec<Row>,
    order: Order,
) -> Result<Vec<Row>, OutOfMemory>
    requires rows { (p : ℕ) × All (IsRow p order) rows.items }
    requires pivots { All (HasPivot order) rows.items }
    requires apart { AreApart order rows.items }
    ensures { IfOk result (λ table. IsAscending order rows.items table.items) }
{
    let mut table = Vec::with_capacity(alloc, rows.len())?;
    for row in rows {
        insert_row(&mut table, row, order)?;
    }
    Ok(table)
}

// Puts a row in its place.
fn insert_row(table: &mut Vec<Row>, row: Row, order: Order) -> Result<(), OutOfMemory>
    requires stairs { (p : ℕ) × IsStairs p order table.old.items × IsRow p order row }
    requires pivot { HasPivot order row }
    requires new { HaveNoPivotOf order row table.old.items }
    ensures stairs { OnOk result ((p : ℕ) → IsStairs p order table.old.items → IsRow p order row →
        IsStairs p order table.new.items) }
    ensures members { OnOk result (HasMembers (table.old.items ++ row ∷ []) table.new.items) }
{
    let place = place_for(table, &row, order);
    table.insert(place, row)?;
    Ok(())
}

// The place where the row belongs.
fn place_for(table: &[Row], row: &Row, order: Order) -> usize
    requires stairs { (p : ℕ) × IsStairs p order table.now × IsRow p order row.now }
    requires pivot { HasPivot order row.now }
    requires new { HaveNoPivotOf order row.now table.now }
    ensures { (x : IntegralValue) → IsPivot order row.now x → IsPlaceFor order table.now x result }
{
    match row.greatest() {
        Some(pivot) => match place_of_pivot(table, order, pivot) {
            Ok(_) => unreachable!(),
            Err(place) => place,
        },
        None => unreachable!(),
    }
}

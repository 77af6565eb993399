//! Where the pivots of rows in any order stand: a list that ascends by pivot, in which one is found
//! by halving.

ghost use Rattle.std.specs.Prelude.{All, Contains, IfOk, MatchOption};
ghost use Rattle.std.specs.List.Sorted.{IsSorted};
ghost use Rattle.sparse_row.specs.Row.{IsPivot};
ghost use Rattle.sector_forward.specs.Steps.{HasPivot};
ghost use Rattle.back_substitute.specs.Pivots.{IsOrdered, by_pivot, IsListing, IsIndex, HasNone};

use integral_index::{Integral, Order};
use out_of_memory::OutOfMemory;
use sparse_row::Row;
use std::alloc::Global;

/// A pivot, and the place of its row in the list of rows.
#[derive(Clone, Copy, Debug)]
pub(crate) struct PivotPlace {
    pub(crate) pivot: Integral,
    pub(crate) place: usize,
}

/// The pivots of the rows with their places, ascending.
pub(crate) fn index_of(
    alloc: Global,
    rows: &[Row],
    order: Order,
) -> Result<Vec<PivotPlace>, OutOfMemory>
    requires ordered { All (IsOrdered order) rows.now }
    requires pivots { All (HasPivot order) rows.now }
    ensures { IfOk result (λ index. IsIndex order rows.now index.items) }
{
    let mut index = listed(alloc, rows, order)?;
    index.sort_unstable_by(|entry, other| order.compare(&entry.pivot, &other.pivot));
    Ok(index)
}

// The pivots of the rows with their places, row by row.
fn listed(alloc: Global, rows: &[Row], order: Order) -> Result<Vec<PivotPlace>, OutOfMemory>
    requires ordered { All (IsOrdered order) rows.now }
    requires pivots { All (HasPivot order) rows.now }
    ensures { IfOk result (λ listed. IsListing order rows.now listed.items) }
{
    let mut listed = Vec::with_capacity(alloc, rows.len())?;
    for place in 0..rows.len() {
        let pivot = pivot_of(&rows[place], order);
        listed.push(PivotPlace { pivot, place })?;
    }
    Ok(listed)
}

fn pivot_of(row: &Row, order: Order) -> Integral
    requires ordered { IsOrdered order row.now }
    requires pivot { HasPivot order row.now }
    ensures { IsPivot order row.now result }
{
    match row.greatest() {
        Some(pivot) => *pivot,
        None => unreachable!(),
    }
}

/// The place of the row whose pivot is x.
pub(crate) fn place_of(index: &[PivotPlace], order: Order, x: &Integral) -> Option<usize>
    requires { IsSorted (by_pivot order) index.now }
    ensures { MatchOption result
        (HasNone x.now index.now)
        (λ place. Contains index.now (record { pivot = x.now; place = place })) }
{
    match index.binary_search_by(|entry| order.compare(&entry.pivot, x)) {
        Ok(found) => Some(index[found].place),
        Err(_) => None,
    }
}

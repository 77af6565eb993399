//! The integrals that rows show, ascending, so that one is found by halving.

ghost use Rattle.std.specs.Prelude.{◌↔◌, Contains, IsTrue, IfOk};
ghost use Rattle.std.specs.List.Sorted.{IsSorted};
ghost use Rattle.integral_index.specs.Integral.{Integral as IntegralValue};
ghost use Rattle.integral_index.specs.Order.{compare};
ghost use Rattle.sector_forward.specs.Elimination.{IsShownBySome};
ghost use Rattle.reduction_core.specs.Shown.{AreShownBy};

use integral_index::{Integral, Order};
use out_of_memory::OutOfMemory;
use sparse_row::Row;
use std::alloc::Global;

/// All integrals that the rows show, ascending; one that several rows show stands there several times.
pub(crate) fn shown_integrals(
    alloc: Global,
    rows: &[Row],
    order: Order,
) -> Result<Vec<Integral>, OutOfMemory>
    ensures { IfOk result (λ shown. AreShownBy order rows.now shown.items) }
{
    let mut shown = gathered(alloc, rows)?;
    shown.sort_unstable_by(|x, y| order.compare(x, y));
    Ok(shown)
}

// All integrals that the rows show, row by row.
fn gathered(alloc: Global, rows: &[Row]) -> Result<Vec<Integral>, OutOfMemory>
    ensures { IfOk result (λ shown. (x : IntegralValue) → Contains shown.items x ↔ IsShownBySome rows.now x) }
{
    let mut shown = Vec::new(alloc);
    for row in rows {
        row.push_integrals(&mut shown)?;
    }
    Ok(shown)
}

/// Whether the integral is one of these, which ascend.
pub(crate) fn is_shown(shown: &[Integral], x: &Integral, order: Order) -> bool
    requires { IsSorted (compare order) shown.now }
    ensures { IsTrue result ↔ Contains shown.now x.now }
{
    match shown.binary_search_by(|other| order.compare(other, x)) {
        Ok(_) => true,
        Err(_) => false,
    }
}

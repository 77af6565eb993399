//! The integrals that rows show, ascending, each once.

ghost use Rattle.std.specs.Prelude.{◌≡◌, ◌++◌, ◌↔◌, Contains, AllPairs, IsTrue, IfOk, OnOk};
ghost use Rattle.std.specs.List.Sorted.{IsSorted};
ghost use Rattle.integral_index.specs.Integral.{Integral as IntegralValue};
ghost use Rattle.integral_index.specs.Order.{compare};
ghost use Rattle.table_text.specs.TableText.{shown_integrals};
ghost use Rattle.table_text.specs.Distinct.{IsLess, IsLast, IsPushedOnce};

use integral_index::{Integral, Order};
use out_of_memory::OutOfMemory;
use sparse_row::Row;
use std::alloc::Global;

/// Appends the integrals that a row shows, as the text lists them.
pub(crate) fn push_shown(shown: &mut Vec<Integral>, row: &Row) -> Result<(), OutOfMemory>
    ensures { OnOk result (shown.new.items ≡ shown.old.items ++ shown_integrals row.now) }
{
    row.push_integrals(shown)?;
    Ok(())
}

/// The same integrals, ascending, each once.
pub(crate) fn ascending(
    alloc: Global,
    integrals: Vec<Integral>,
    order: Order,
) -> Result<Vec<Integral>, OutOfMemory>
    ensures ascend { IfOk result (λ kept. AllPairs (IsLess order) kept.items) }
    ensures members { IfOk result (λ kept. (x : IntegralValue) → Contains kept.items x ↔ Contains integrals.items x) }
{
    let mut integrals = integrals;
    integrals.sort_unstable_by(|x, y| order.compare(x, y));
    without_repeats(alloc, &integrals, order)
}

// The integrals of a sorted list, each once.
fn without_repeats(
    alloc: Global,
    sorted: &[Integral],
    order: Order,
) -> Result<Vec<Integral>, OutOfMemory>
    requires { IsSorted (compare order) sorted.now }
    ensures ascend { IfOk result (λ kept. AllPairs (IsLess order) kept.items) }
    ensures members { IfOk result (λ kept. (x : IntegralValue) → Contains kept.items x ↔ Contains sorted.now x) }
{
    let mut kept: Vec<Integral> = Vec::new(alloc);
    for integral in sorted {
        push_once(&mut kept, integral, order)?;
    }
    Ok(kept)
}

// Appends an integral, unless it is the last.
fn push_once(kept: &mut Vec<Integral>, integral: &Integral, order: Order) -> Result<(), OutOfMemory>
    ensures { OnOk result (IsPushedOnce kept.old.items integral.now kept.new.items) }
{
    if is_last(kept, integral, order) {
        return Ok(());
    }
    kept.push(*integral)?;
    Ok(())
}

// Whether the integral is the last of the list.
fn is_last(kept: &[Integral], integral: &Integral, order: Order) -> bool
    ensures { IsTrue result ↔ IsLast kept.now integral.now }
{
    !kept.is_empty() && order.compare(&kept[kept.len() - 1], integral).is_eq()
}

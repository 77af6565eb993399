//! The opening of a board: the units of the equations, and the rows that wait at each.

ghost use Rattle.std.specs.Prelude.{◌≡◌, ℕ, All, IfOk, OnOk};
ghost use Rattle.std.specs.List.{AllZip};
ghost use Rattle.integral_index.specs.declared.Unit.{Unit as UnitValue};
ghost use Rattle.sparse_row.specs.Row.{IsRow};
ghost use Rattle.sector_machine.specs.Machine.{Ascends, AreUnitsOf, Opens};
ghost use Rattle.reduction_core.specs.Slots.{state_of};
ghost use Rattle.reduction_core.specs.Opening.{ShowsUnit, AreListed, IsEmptySlot};

use crate::listed::{ListedRows, units_of};
use crate::slots::{Slot, joined};
use integral_index::{Order, Unit};
use out_of_memory::OutOfMemory;
use sparse_row::Row;
use std::alloc::Global;

/// The slots of the opening of the rows.
pub(crate) fn opened(alloc: Global, rows: Vec<Row>, order: Order) -> Result<Vec<Slot>, OutOfMemory>
    requires { (p : ℕ) × All (IsRow p order) rows.items }
    ensures { IfOk result (λ slots. (p : ℕ) → All (IsRow p order) rows.items →
        Opens p order rows.items (state_of slots.items)) }
{
    let units = units_of(alloc, &rows)?;
    let slots = empty_slots(alloc, &units)?;
    joined(slots, rows, order)
}

// A slot for each unit, where nothing waits and nothing is done.
fn empty_slots(alloc: Global, units: &[Unit]) -> Result<Vec<Slot>, OutOfMemory>
    ensures { IfOk result (λ slots. AllZip IsEmptySlot units.now slots.items) }
{
    let mut slots = Vec::with_capacity(alloc, units.len())?;
    for unit in units {
        slots.push(Slot {
            unit: *unit,
            waiting: ListedRows::new(alloc),
            forward: None,
            back: None,
        })?;
    }
    Ok(slots)
}

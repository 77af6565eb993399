//! The units of a board, ascending, each with its rows.

ghost use Rattle.std.specs.Prelude.{◌≡◌, ◌<◌, ℕ, ◌++◌, [], ◌∷◌, length, All, Contains, MatchOption, IfOk, OnOk};
ghost use Rattle.std.specs.List.{AllZip};
ghost use Rattle.sector_machine.specs.Machine.{Ascends, back_rows, forward_count, back_count};
ghost use Rattle.sparse_row.specs.Row.{IsRow};
ghost use Rattle.reduction_core.specs.Slots.{units_of, state_of, IsUnitAt, IsPushedAt, IsJoined, HaveListedUnits};

use crate::listed::ListedRows;
use integral_index::{Order, Unit};
use out_of_memory::OutOfMemory;
use sparse_row::{Row, push_copies};
use std::alloc::Global;
use std::mem;

/// A unit with the rows that wait at it, and its forward rows and back rows where it has them.
#[derive(Debug, Drop)]
pub(crate) struct Slot {
    pub(crate) unit: Unit,
    pub(crate) waiting: ListedRows,
    pub(crate) forward: Option<ListedRows>,
    pub(crate) back: Option<Vec<Row>>,
}

/// The place of the unit.
pub(crate) fn place_of(slots: &[Slot], unit: Unit) -> Option<usize>
    requires { Ascends (units_of slots.now) }
    ensures { MatchOption result
        (¬ (Contains (units_of slots.now) unit))
        (λ place. IsUnitAt slots.now unit place) }
{
    match slots.binary_search_by(|slot| slot.unit.compare(&unit)) {
        Ok(place) => Some(place),
        Err(_) => None,
    }
}

/// How many units have forward rows.
pub(crate) fn forward_count(slots: &[Slot]) -> usize
    requires { Ascends (units_of slots.now) }
    ensures { result ≡ forward_count (state_of slots.now) }
{
    let mut count = 0;
    for slot in slots {
        if slot.forward.is_some() {
            count += 1;
        }
    }
    count
}

/// How many units have back rows.
pub(crate) fn back_count(slots: &[Slot]) -> usize
    requires { Ascends (units_of slots.now) }
    ensures { result ≡ back_count (state_of slots.now) }
{
    let mut count = 0;
    for slot in slots {
        if slot.back.is_some() {
            count += 1;
        }
    }
    count
}

/// Copies of the back rows of all units.
pub(crate) fn back_rows(alloc: Global, slots: &[Slot]) -> Result<Vec<Row>, OutOfMemory>
    requires { Ascends (units_of slots.now) }
    ensures { IfOk result (λ rows. rows.items ≡ back_rows (state_of slots.now)) }
{
    let mut made = Vec::new(alloc);
    for slot in slots {
        if let Some(rows) = &slot.back {
            push_copies(&mut made, rows)?;
        }
    }
    Ok(made)
}

/// The slots where the rows wait too, each at the unit of its greatest integral, behind what waits
/// there. Empty rows are dropped.
pub(crate) fn joined(
    mut slots: Vec<Slot>,
    rows: Vec<Row>,
    order: Order,
) -> Result<Vec<Slot>, OutOfMemory>
    requires ascend { Ascends (units_of slots.items) }
    requires rows { (p : ℕ) × All (IsRow p order) rows.items }
    requires listed { HaveListedUnits order (units_of slots.items) rows.items }
    ensures { IfOk result (λ joined. AllZip (IsJoined order rows.items) slots.items joined.items) }
{
    for row in rows {
        join(&mut slots, row, order)?;
    }
    Ok(slots)
}

// Lets one row wait.
fn join(slots: &mut Vec<Slot>, row: Row, order: Order) -> Result<(), OutOfMemory>
    requires ascend { Ascends (units_of slots.old.items) }
    requires row { (p : ℕ) × IsRow p order row }
    requires listed { HaveListedUnits order (units_of slots.old.items) (row ∷ []) }
    ensures { OnOk result (AllZip (IsJoined order (row ∷ [])) slots.old.items slots.new.items) }
{
    let unit = match row.greatest() {
        Some(x) => x.unit(),
        None => return Ok(()),
    };
    match place_of(slots, unit) {
        Some(place) => push_at(slots, place, row),
        None => unreachable!(),
    }
}

// Lets one row wait at the unit at this place.
fn push_at(slots: &mut Vec<Slot>, place: usize, row: Row) -> Result<(), OutOfMemory>
    requires { place < length slots.old.items }
    ensures { OnOk result (IsPushedAt place row slots.old.items slots.new.items) }
{
    let alloc = *slots.allocator();
    let slot = &mut slots[place];
    let waiting = mem::replace(&mut slot.waiting, ListedRows::new(alloc));
    slot.waiting = waiting.with(row)?;
    Ok(())
}

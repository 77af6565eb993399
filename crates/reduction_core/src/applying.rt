//! What a record does to the slots of a board.

ghost use Rattle.std.specs.Prelude.{ℕ, ◌<◌, length, Contains, IfOk};
ghost use Rattle.std.specs.List.{AllZip};
ghost use Rattle.sector_machine.specs.Machine.{Ascends, IsAfterForward, IsAfterBack};
ghost use Rattle.reduction_core.specs.Slots.{units_of, state_of};
ghost use Rattle.reduction_core.specs.KeptBoard.{IsBoard};
ghost use Rattle.reduction_core.specs.Records.{event_of, IsAccepted};
ghost use Rattle.reduction_core.specs.Applying.{IsChangedAt, IsChangedFor, IsAfter, HasForward, HasBack, IsRestFor};

use crate::listed::ListedRows;
use crate::records::Record;
use crate::slots::{Slot, joined, place_of};
use integral_index::{Order, Unit};
use out_of_memory::OutOfMemory;
use sparse_row::Row;

/// The slots after the event of the record.
pub(crate) fn after_record(
    slots: Vec<Slot>,
    entry: Record,
    order: Order,
) -> Result<Vec<Slot>, OutOfMemory>
    requires { (p : ℕ) × IsBoard p order (state_of slots.items) × IsAccepted p order (state_of slots.items) entry }
    ensures { IfOk result (λ after. IsAfter order (event_of entry) (state_of slots.items) (state_of after.items)) }
{
    match entry {
        Record::Forward { unit, rows, rest } => {
            after_forward(slots, unit, rows.into_vec(), rest.into_vec(), order)
        }
        Record::Back { unit, rows } => Ok(after_back(slots, unit, rows.into_vec())),
    }
}

// The slots after the forward elimination of a unit: the rows become its forward rows, what waited
// there waits no more, and the rest waits at the units of its greatest integrals.
fn after_forward(
    mut slots: Vec<Slot>,
    unit: Unit,
    rows: Vec<Row>,
    rest: Vec<Row>,
    order: Order,
) -> Result<Vec<Slot>, OutOfMemory>
    requires ascend { Ascends (units_of slots.items) }
    requires listed { Contains (units_of slots.items) unit }
    requires rest { IsRestFor order unit (units_of slots.items) rest.items }
    ensures { IfOk result (λ after. IsAfterForward order unit rows.items rest.items (state_of slots.items) (state_of after.items)) }
{
    let listed = ListedRows::of(rows)?;
    set_forward(&mut slots, unit, listed);
    joined(slots, rest, order)
}

// The slots after the back substitution of a unit: the rows become its back rows.
fn after_back(mut slots: Vec<Slot>, unit: Unit, rows: Vec<Row>) -> Vec<Slot>
    requires ascend { Ascends (units_of slots.items) }
    requires listed { Contains (units_of slots.items) unit }
    ensures { IsAfterBack unit rows.items (state_of slots.items) (state_of result.items) }
{
    set_back(&mut slots, unit, rows);
    slots
}

// Puts the forward rows into the slot of the unit, in which nothing waits any more.
fn set_forward(slots: &mut Vec<Slot>, unit: Unit, rows: ListedRows)
    requires ascend { Ascends (units_of slots.old.items) }
    requires listed { Contains (units_of slots.old.items) unit }
    ensures { AllZip (IsChangedFor (HasForward rows) unit) slots.old.items slots.new.items }
{
    match place_of(slots, unit) {
        Some(place) => set_forward_at(slots, place, rows),
        None => unreachable!(),
    }
}

fn set_forward_at(slots: &mut Vec<Slot>, place: usize, rows: ListedRows)
    requires { place < length slots.old.items }
    ensures { IsChangedAt (HasForward rows) place slots.old.items slots.new.items }
{
    let alloc = *slots.allocator();
    let slot = &mut slots[place];
    slot.waiting = ListedRows::new(alloc);
    slot.forward = Some(rows);
}

// Puts the back rows into the slot of the unit.
fn set_back(slots: &mut Vec<Slot>, unit: Unit, rows: Vec<Row>)
    requires ascend { Ascends (units_of slots.old.items) }
    requires listed { Contains (units_of slots.old.items) unit }
    ensures { AllZip (IsChangedFor (HasBack rows.items) unit) slots.old.items slots.new.items }
{
    match place_of(slots, unit) {
        Some(place) => set_back_at(slots, place, rows),
        None => unreachable!(),
    }
}

fn set_back_at(slots: &mut Vec<Slot>, place: usize, rows: Vec<Row>)
    requires { place < length slots.old.items }
    ensures { IsChangedAt (HasBack rows.items) place slots.old.items slots.new.items }
{
    slots[place].back = Some(rows);
}

//! The task of the unit whose turn it is.

ghost use Rattle.std.specs.Prelude.{◌≡◌, ◌<◌, ◌++◌, ℕ, List, length, filter, slice_index_or, All, IfOk, OnOk, MatchOption};
ghost use Rattle.std.specs.List.Sorted.{IsSorted};
ghost use Rattle.integral_index.specs.Order.{compare};
ghost use Rattle.sparse_row.specs.Row.{Row as RowValue, IsRow};
ghost use Rattle.sector_machine.specs.Machine.{back_rows};
ghost use Rattle.sector_machine.specs.Tasks.{shows_pivot_of};
ghost use Rattle.sector_machine.specs.Invariant.{HoldsOfRows};
ghost use Rattle.reduction_core.specs.declared.slots.Slot.{Slot as SlotValue};
ghost use Rattle.reduction_core.specs.Slots.{state_of};
ghost use Rattle.reduction_core.specs.Shown.{AreShownBy};
ghost use Rattle.reduction_core.specs.Ready.{NoForward, NoBack, IsForwardTurn, IsBackTurn, IsReady, AreHeld};

use crate::listed::ListedRows;
use crate::readiness::{back_turn, forward_turn};
use crate::shown::{is_shown, shown_integrals};
use crate::slots::Slot;
use crate::task::Task;
use field_word::Modulus;
use integral_index::{Integral, Order, Unit};
use out_of_memory::OutOfMemory;
use sparse_row::{Row, copies};
use std::alloc::Global;

/// The task of the unit whose turn it is, if there is one.
pub(crate) fn task_in_turn(
    alloc: Global,
    slots: &[Slot],
    busy: &[Unit],
    order: Order,
    modulus: Modulus,
) -> Result<Option<Task>, OutOfMemory>
    requires { (equations : List RowValue) × HoldsOfRows modulus order equations (state_of slots.now) }
    ensures { IfOk result (λ ready. MatchOption ready
        (NoForward order (state_of slots.now) busy.now × NoBack (state_of slots.now) busy.now)
        (λ task. (task.modulus ≡ modulus) × IsReady order (state_of slots.now) busy.now task.work)) }
{
    match forward_turn(slots, busy, order) {
        Some(place) => Ok(Some(forward_task(alloc, slots, place, busy, order, modulus)?)),
        None => match back_turn(slots, busy, order) {
            Some(place) => Ok(Some(back_task(alloc, slots, place, busy, order, modulus)?)),
            None => Ok(None),
        },
    }
}

fn forward_task(
    alloc: Global,
    slots: &[Slot],
    place: usize,
    busy: &[Unit],
    order: Order,
    modulus: Modulus,
) -> Result<Task, OutOfMemory>
    requires held { (equations : List RowValue) × HoldsOfRows modulus order equations (state_of slots.now) }
    requires place { place < length slots.now }
    requires turn { (d : SlotValue) → IsForwardTurn order (state_of slots.now) busy.now (slice_index_or slots.now place d).unit }
    ensures { IfOk result (λ task.
        (task.modulus ≡ modulus) × IsReady order (state_of slots.now) busy.now task.work) }
{
    let slot = &slots[place];
    let rows = copies(alloc, slot.waiting.rows())?;
    Ok(Task::forward(slot.unit, rows, modulus))
}

fn back_task(
    alloc: Global,
    slots: &[Slot],
    place: usize,
    busy: &[Unit],
    order: Order,
    modulus: Modulus,
) -> Result<Task, OutOfMemory>
    requires held { (equations : List RowValue) × HoldsOfRows modulus order equations (state_of slots.now) }
    requires place { place < length slots.now }
    requires none { NoForward order (state_of slots.now) busy.now }
    requires turn { (d : SlotValue) → IsBackTurn (state_of slots.now) busy.now (slice_index_or slots.now place d).unit }
    ensures { IfOk result (λ task.
        (task.modulus ≡ modulus) × IsReady order (state_of slots.now) busy.now task.work) }
{
    let slot = &slots[place];
    match &slot.forward {
        Some(forward) => {
            let rows = copies(alloc, forward.rows())?;
            let below = below(alloc, slots, forward, order)?;
            Ok(Task::back(slot.unit, rows, below, modulus))
        }
        None => unreachable!(),
    }
}

// Copies of the back rows whose pivots the rows show. A pivot is of its row's unit, so only units that
// the rows show are asked.
fn below(
    alloc: Global,
    slots: &[Slot],
    rows: &ListedRows,
    order: Order,
) -> Result<Vec<Row>, OutOfMemory>
    requires { AreHeld order slots.now }
    ensures { IfOk result (λ below.
        below.items ≡ filter (shows_pivot_of order rows.now) (back_rows (state_of slots.now))) }
{
    let shown = shown_integrals(alloc, rows.rows(), order)?;
    let mut below = Vec::new(alloc);
    for slot in slots {
        if rows.show_unit(slot.unit) {
            if let Some(rules) = &slot.back {
                push_shown(&mut below, rules, &shown, order)?;
            }
        }
    }
    Ok(below)
}

// Appends copies of the rules whose pivots are shown.
fn push_shown(
    below: &mut Vec<Row>,
    rules: &[Row],
    shown: &[Integral],
    order: Order,
) -> Result<(), OutOfMemory>
    requires rules { (p : ℕ) × All (IsRow p order) rules.now }
    requires ascend { IsSorted (compare order) shown.now }
    ensures { OnOk result ((rows : List RowValue) → AreShownBy order rows shown.now →
        below.new.items ≡ below.old.items ++ filter (shows_pivot_of order rows) rules.now) }
{
    for rule in rules {
        if is_pivot_shown(shown, rule, order) {
            below.push(rule.copy()?)?;
        }
    }
    Ok(())
}

fn is_pivot_shown(shown: &[Integral], rule: &Row, order: Order) -> bool
    requires rule { (p : ℕ) × IsRow p order rule.now }
    requires ascend { IsSorted (compare order) shown.now }
    ensures { (rows : List RowValue) → AreShownBy order rows shown.now →
        result ≡ shows_pivot_of order rows rule.now }
{
    match rule.greatest() {
        Some(x) => is_shown(shown, x, order),
        None => false,
    }
}

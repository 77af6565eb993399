//! Which events may happen, and whose turn it is.

ghost use Rattle.std.specs.Prelude.{◌≡◌, ◌≢◌, ◌↔◌, ◌<◌, length, slice_index_or, All, Contains, IsTrue, MatchOption};
ghost use Rattle.integral_index.specs.Order.{unit_of};
ghost use Rattle.sector_machine.specs.State.{Has};
ghost use Rattle.sector_machine.specs.Machine.{Ascends, MayForward, MayBack};
ghost use Rattle.reduction_core.specs.declared.slots.Slot.{Slot as SlotValue};
ghost use Rattle.reduction_core.specs.Slots.{units_of, by_unit, back_of, state_of};
ghost use Rattle.reduction_core.specs.Ready.{NoForward, NoBack, IsForwardTurn, IsBackTurn, AreHeld, LeavesAlone, IsDoneAt, GoesForward, GoesBack};

use crate::slots::{Slot, place_of};
use integral_index::{Order, Unit};
use sparse_row::Row;

/// The place of the greatest unit outside the busy ones for which a forward event may happen.
pub(crate) fn forward_turn(slots: &[Slot], busy: &[Unit], order: Order) -> Option<usize>
    requires { AreHeld order slots.now }
    ensures { MatchOption result
        (NoForward order (state_of slots.now) busy.now)
        (λ place. (place < length slots.now) × ((d : SlotValue) →
        IsForwardTurn order (state_of slots.now) busy.now (slice_index_or slots.now place d).unit)) }
{
    let mut place = slots.len();
    while place > 0 {
        place -= 1;
        if goes_forward(slots, place, busy, order) {
            return Some(place);
        }
    }
    None
}

/// The place of the least unit outside the busy ones for which a back event may happen.
pub(crate) fn back_turn(slots: &[Slot], busy: &[Unit], order: Order) -> Option<usize>
    requires { AreHeld order slots.now }
    ensures { MatchOption result
        (NoBack (state_of slots.now) busy.now)
        (λ place. (place < length slots.now) × ((d : SlotValue) →
        IsBackTurn (state_of slots.now) busy.now (slice_index_or slots.now place d).unit)) }
{
    for place in 0..slots.len() {
        if goes_back(slots, place, busy, order) {
            return Some(place);
        }
    }
    None
}

// Whether the unit at the place is none of the busy ones, and a forward event may happen for it.
fn goes_forward(slots: &[Slot], place: usize, busy: &[Unit], order: Order) -> bool
    requires place { place < length slots.now }
    requires held { AreHeld order slots.now }
    ensures { (d : SlotValue) → IsTrue result ↔ GoesForward order slots.now busy.now place d }
{
    is_free(slots, place, busy) && may_forward(slots, place, order)
}

// The same of a back event.
fn goes_back(slots: &[Slot], place: usize, busy: &[Unit], order: Order) -> bool
    requires place { place < length slots.now }
    requires held { AreHeld order slots.now }
    ensures { (d : SlotValue) → IsTrue result ↔ GoesBack slots.now busy.now place d }
{
    is_free(slots, place, busy) && may_back(slots, place, order)
}

// Whether the unit at the place is none of the busy ones.
fn is_free(slots: &[Slot], place: usize, busy: &[Unit]) -> bool
    requires { place < length slots.now }
    ensures { (d : SlotValue) → IsTrue result ↔ (¬ (Contains busy.now (slice_index_or slots.now place d).unit)) }
{
    !is_among(busy, slots[place].unit)
}

fn is_among(units: &[Unit], unit: Unit) -> bool
    ensures { IsTrue result ↔ Contains units.now unit }
{
    for other in units {
        if is_same(*other, unit) {
            return true;
        }
    }
    false
}

fn is_same(unit: Unit, other: Unit) -> bool
    ensures { IsTrue result ↔ (unit ≡ other) }
{
    unit == other
}

/// Whether a forward event may happen for the unit at the place.
pub(crate) fn may_forward(slots: &[Slot], place: usize, order: Order) -> bool
    requires place { place < length slots.now }
    requires held { AreHeld order slots.now }
    ensures { (d : SlotValue) →
        IsTrue result ↔ MayForward order (slice_index_or slots.now place d).unit (state_of slots.now) }
{
    let slot = &slots[place];
    match &slot.forward {
        Some(_) => false,
        None => all_leave_alone(slots, slot.unit),
    }
}

// Whether no row that waits at another unit shows an integral of this one.
fn all_leave_alone(slots: &[Slot], unit: Unit) -> bool
    ensures { IsTrue result ↔ All (LeavesAlone unit) slots.now }
{
    for slot in slots {
        if !leaves_alone(slot, unit) {
            return false;
        }
    }
    true
}

fn leaves_alone(slot: &Slot, unit: Unit) -> bool
    ensures { IsTrue result ↔ LeavesAlone unit slot.now }
{
    is_same(slot.unit, unit) || !slot.waiting.show_unit(unit)
}

/// Whether a back event may happen for the unit at the place.
pub(crate) fn may_back(slots: &[Slot], place: usize, order: Order) -> bool
    requires place { place < length slots.now }
    requires held { AreHeld order slots.now }
    ensures { (d : SlotValue) →
        IsTrue result ↔ MayBack (slice_index_or slots.now place d).unit (state_of slots.now) }
{
    let slot = &slots[place];
    match &slot.forward {
        Some(rows) => match &slot.back {
            Some(_) => false,
            None => all_are_done(slots, rows.units(), slot.unit),
        },
        None => false,
    }
}

// Whether each of the units but this one has back rows.
fn all_are_done(slots: &[Slot], units: &[Unit], unit: Unit) -> bool
    requires { Ascends (units_of slots.now) }
    ensures { IsTrue result ↔ All (IsDoneAt (by_unit back_of slots.now) unit) units.now }
{
    for other in units {
        if !is_done_at(slots, *other, unit) {
            return false;
        }
    }
    true
}

// Whether the unit is the other one, or has back rows.
fn is_done_at(slots: &[Slot], unit: Unit, other: Unit) -> bool
    requires { Ascends (units_of slots.now) }
    ensures { IsTrue result ↔ IsDoneAt (by_unit back_of slots.now) other unit }
{
    is_same(unit, other) || has_back(slots, unit)
}

fn has_back(slots: &[Slot], unit: Unit) -> bool
    requires { Ascends (units_of slots.now) }
    ensures { IsTrue result ↔ Has (by_unit back_of slots.now) unit }
{
    match place_of(slots, unit) {
        Some(place) => {
            let slot = &slots[place];
            match &slot.back {
                Some(_) => true,
                None => false,
            }
        }
        None => false,
    }
}

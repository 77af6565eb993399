//! Whether a record is accepted in a state: whether its event may happen, and its rows are such as the
//! event may have. Nothing is known of the record, and no memory is taken.

ghost use Rattle.std.specs.Prelude.{◌≡◌, ◌↔◌, ◌<◌, ◌++◌, List, length, slice_index_or, All, IsTrue};
ghost use Rattle.sparse_row.specs.Row.{Row as RowValue};
ghost use Rattle.sector_forward.specs.Elimination.{IsShownBySome};
ghost use Rattle.back_substitute.specs.Substitution.{ShowsNoPivotOf};
ghost use Rattle.sector_machine.specs.Machine.{Ascends, back_rows};
ghost use Rattle.sector_machine.specs.Accepted.{ShowNothingNew, IsAcceptedForward, IsAcceptedBack};
ghost use Rattle.sector_machine.specs.Invariant.{HoldsOfRows};
ghost use Rattle.reduction_core.specs.declared.slots.Slot.{Slot as SlotValue};
ghost use Rattle.reduction_core.specs.Slots.{units_of, state_of};
ghost use Rattle.reduction_core.specs.Records.{IsAccepted};
ghost use Rattle.reduction_core.specs.Acceptance.{HasOrder, ShowsOnly};
ghost use Rattle.reduction_core.specs.Accepting.{back_part, IsClearAt, FitsBoard};

use crate::acceptance::{fit_back, fit_forward, is_shown_by_some, show_no_pivot_of};
use crate::readiness::{may_back, may_forward};
use crate::records::Record;
use crate::slots::{Slot, place_of};
use field_word::Modulus;
use integral_index::{Integral, Order, Unit};
use sparse_row::Row;

/// Whether the record is accepted.
pub(crate) fn accepts(slots: &[Slot], entry: &Record, order: Order, modulus: &Modulus) -> bool
    requires { (equations : List RowValue) × HoldsOfRows modulus.now order equations (state_of slots.now) }
    ensures { IsTrue result ↔ IsAccepted modulus.now order (state_of slots.now) entry.now }
{
    match entry {
        Record::Forward { unit, rows, rest } => accepts_forward(
            slots,
            *unit,
            rows.as_slice(),
            rest.as_slice(),
            order,
            modulus,
        ),
        Record::Back { unit, rows } => {
            accepts_back(slots, *unit, rows.as_slice(), order, modulus)
        }
    }
}

fn accepts_forward(
    slots: &[Slot],
    unit: Unit,
    rows: &[Row],
    rest: &[Row],
    order: Order,
    modulus: &Modulus,
) -> bool
    requires { (equations : List RowValue) × HoldsOfRows modulus.now order equations (state_of slots.now) }
    ensures { IsTrue result ↔ IsAcceptedForward modulus.now order (state_of slots.now) unit rows.now rest.now }
{
    match place_of(slots, unit) {
        Some(place) => accepts_forward_at(slots, place, rows, rest, order, modulus),
        None => false,
    }
}

fn accepts_forward_at(
    slots: &[Slot],
    place: usize,
    rows: &[Row],
    rest: &[Row],
    order: Order,
    modulus: &Modulus,
) -> bool
    requires place { place < length slots.now }
    requires held { (equations : List RowValue) × HoldsOfRows modulus.now order equations (state_of slots.now) }
    ensures { (d : SlotValue) → IsTrue result
        ↔ IsAcceptedForward modulus.now order (state_of slots.now) (slice_index_or slots.now place d).unit rows.now rest.now }
{
    if !may_forward(slots, place, order) {
        return false;
    }
    let slot = &slots[place];
    fit_forward(slot.waiting.rows(), rows, rest, slot.unit, order, modulus)
}

fn accepts_back(slots: &[Slot], unit: Unit, rows: &[Row], order: Order, modulus: &Modulus) -> bool
    requires { (equations : List RowValue) × HoldsOfRows modulus.now order equations (state_of slots.now) }
    ensures { IsTrue result ↔ IsAcceptedBack modulus.now order (state_of slots.now) unit rows.now }
{
    match place_of(slots, unit) {
        Some(place) => accepts_back_at(slots, place, rows, order, modulus),
        None => false,
    }
}

fn accepts_back_at(
    slots: &[Slot],
    place: usize,
    rows: &[Row],
    order: Order,
    modulus: &Modulus,
) -> bool
    requires place { place < length slots.now }
    requires held { (equations : List RowValue) × HoldsOfRows modulus.now order equations (state_of slots.now) }
    ensures { (d : SlotValue) → IsTrue result
        ↔ IsAcceptedBack modulus.now order (state_of slots.now) (slice_index_or slots.now place d).unit rows.now }
{
    if !may_back(slots, place, order) {
        return false;
    }
    let slot = &slots[place];
    match &slot.forward {
        Some(forward) => fits_board(slots, forward.rows(), rows, slot.unit, order, modulus),
        None => false,
    }
}

// Whether the rows may be the back rows of the unit with these forward rows, beside the back rows of the others.
fn fits_board(
    slots: &[Slot],
    forward: &[Row],
    rows: &[Row],
    unit: Unit,
    order: Order,
    modulus: &Modulus,
) -> bool
    requires forward { All (HasOrder order) forward.now }
    requires held { (equations : List RowValue) × HoldsOfRows modulus.now order equations (state_of slots.now) }
    ensures { IsTrue result ↔ FitsBoard modulus.now order (state_of slots.now) unit forward.now rows.now }
{
    if !fit_back(forward, rows, unit, order, modulus) {
        return false;
    }
    if !are_clear(slots, rows, order) {
        return false;
    }
    show_only_known(slots, forward, rows)
}

// Whether the rows show no pivot of a back row.
fn are_clear(slots: &[Slot], rows: &[Row], order: Order) -> bool
    requires ascend { Ascends (units_of slots.now) }
    requires ordered { All (HasOrder order) (back_rows (state_of slots.now)) }
    ensures { IsTrue result ↔ All (ShowsNoPivotOf order (back_rows (state_of slots.now))) rows.now }
{
    for slot in slots {
        if !are_clear_at(slot, rows, order) {
            return false;
        }
    }
    true
}

// The same of the back rows of one unit.
fn are_clear_at(slot: &Slot, rows: &[Row], order: Order) -> bool
    requires { All (HasOrder order) (back_part slot.now) }
    ensures { IsTrue result ↔ IsClearAt order rows.now slot.now }
{
    match &slot.back {
        Some(rules) => show_no_pivot_of(rules, rows, order),
        None => true,
    }
}

// Whether the rows show only integrals that the forward rows or a back row shows.
fn show_only_known(slots: &[Slot], forward: &[Row], rows: &[Row]) -> bool
    requires { Ascends (units_of slots.now) }
    ensures { IsTrue result ↔ ShowNothingNew (forward.now ++ back_rows (state_of slots.now)) rows.now }
{
    for row in rows {
        if !shows_only_known(slots, forward, row) {
            return false;
        }
    }
    true
}

fn shows_only_known(slots: &[Slot], forward: &[Row], row: &Row) -> bool
    requires { Ascends (units_of slots.now) }
    ensures { IsTrue result ↔ ShowsOnly (forward.now ++ back_rows (state_of slots.now)) row.now }
{
    let terms = row.terms();
    for term in terms {
        if !is_known(slots, forward, &term.integral) {
            return false;
        }
    }
    true
}

fn is_known(slots: &[Slot], forward: &[Row], x: &Integral) -> bool
    requires { Ascends (units_of slots.now) }
    ensures { IsTrue result ↔ IsShownBySome (forward.now ++ back_rows (state_of slots.now)) x.now }
{
    if is_shown_by_some(forward, x) {
        return true;
    }
    is_shown_by_back(slots, x)
}

// Whether a back row shows the integral.
fn is_shown_by_back(slots: &[Slot], x: &Integral) -> bool
    requires { Ascends (units_of slots.now) }
    ensures { IsTrue result ↔ IsShownBySome (back_rows (state_of slots.now)) x.now }
{
    for slot in slots {
        if is_shown_at(slot, x) {
            return true;
        }
    }
    false
}

fn is_shown_at(slot: &Slot, x: &Integral) -> bool
    ensures { IsTrue result ↔ IsShownBySome (back_part slot.now) x.now }
{
    match &slot.back {
        Some(rows) => is_shown_by_some(rows, x),
        None => false,
    }
}
